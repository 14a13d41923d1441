//! Where the edges of events stand among the edges of a forest.

ghost use Rattle.std.specs.Prelude.{◌≡◌, ◌↔◌, ◌≤◌, ◌++◌, ◌∷◌, ℕ, List, [], length, IfOk, OnOk};
ghost use Rattle.ar_base.specs.Lists.{IsOneOf};
ghost use Rattle.ar_base.specs.Sets.{Ascends};
ghost use Rattle.cut_text.specs.Printed.{forest_edges};
ghost use Rattle.flow_blocks.specs.Bits.{row_of};
ghost use Rattle.gate_modules.specs.ShortenedInside.{event_numbers};
ghost use Rattle.mode_trees.specs.declared.forests.Edge.{Edge as TheEdge};
ghost use Rattle.module_text.specs.Places.{ArePlacesOf, IsPlaced};

use ar_base::{EventId, Memory, WayId};
use mode_trees::{Edge, Forest};
use std::alloc::Global;

/// The ways of all edges, tree by tree, and for each event the places of its edges among them.
#[derive(Drop)]
pub(crate) struct EdgePlaces {
    pub(crate) ways: Vec<WayId>,
    pub(crate) places: Vec<Vec<usize>>,
}

/// The edges of a forest with their places.
pub(crate) fn edge_places(alloc: Global, forest: &Forest) -> Result<EdgePlaces, Memory>
    ensures { IfOk result (λ table. ArePlacesOf (forest_edges forest.now.trees.items) table) }
{
    let mut table = EdgePlaces {
        ways: Vec::new(alloc),
        places: Vec::new(alloc),
    };
    for tree in &forest.trees {
        add_edges(alloc, &mut table, &tree.edges)?;
    }
    Ok(table)
}

// Puts these edges behind the others.
fn add_edges(alloc: Global, table: &mut EdgePlaces, edges: &[Edge]) -> Result<(), Memory>
    ensures { (before : List TheEdge) → ArePlacesOf before table.old
        → OnOk result (ArePlacesOf (before ++ edges.now) table.new) }
{
    for edge in edges {
        add_edge(alloc, table, *edge)?;
    }
    Ok(())
}

// Puts an edge behind the others.
fn add_edge(alloc: Global, table: &mut EdgePlaces, edge: Edge) -> Result<(), Memory>
    ensures { (before : List TheEdge) → ArePlacesOf before table.old
        → OnOk result (ArePlacesOf (before ++ edge ∷ []) table.new) }
{
    let place = table.ways.len();
    let event = edge.event.n as usize;
    make_room(alloc, &mut table.places, event + 1)?;
    table.places[event].push(place)?;
    table.ways.push(edge.way)?;
    Ok(())
}

// Sees that there are at least so many lists of places, with new ones that are empty.
fn make_room(alloc: Global, places: &mut Vec<Vec<usize>>, count: usize) -> Result<(), Memory>
    ensures room { OnOk result (count ≤ length places.new.items) }
    ensures rows { OnOk result ((e : ℕ) → row_of places.new.items e ≡ row_of places.old.items e) }
{
    while places.len() < count {
        let none = Vec::new(alloc);
        places.push(none)?;
    }
    Ok(())
}

/// The places of the edges of these events, ascending, each once.
pub(crate) fn spots_of(
    alloc: Global,
    places: &[Vec<usize>],
    events: &[EventId],
) -> Result<Vec<usize>, Memory>
    ensures ascends { IfOk result (λ spots. Ascends spots.items) }
    ensures each { IfOk result (λ spots. (p : ℕ)
        → IsOneOf spots.items p ↔ IsPlaced places.now (event_numbers events.now) p) }
{
    let mut spots = Vec::new(alloc);
    for event in events {
        add_places(places, *event, &mut spots)?;
    }
    spots.sort_unstable();
    spots.dedup();
    Ok(spots)
}

// Adds the places of an event's edges.
fn add_places(places: &[Vec<usize>], event: EventId, spots: &mut Vec<usize>) -> Result<(), Memory>
    ensures { OnOk result (spots.new.items ≡ spots.old.items ++ row_of places.now event.n) }
{
    match places.get(event.n as usize) {
        Some(row) => add_all(row, spots),
        None => Ok(()),
    }
}

// Adds these places.
fn add_all(row: &[usize], spots: &mut Vec<usize>) -> Result<(), Memory>
    ensures { OnOk result (spots.new.items ≡ spots.old.items ++ row.now) }
{
    for place in row {
        spots.push(*place)?;
    }
    Ok(())
}
