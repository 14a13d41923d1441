//! The diagrams of events.

ghost use Rattle.std.specs.Prelude.{◌≡◌, ◌⊎◌, ◌≤◌, ◌<◌, List, IfOk, OnOk, length, true};
ghost use Rattle.eq_core.specs.Gates.{Gate, EventIs};
ghost use Rattle.mode_nodes.specs.Bounds.{GrowsWithin};
ghost use Rattle.mode_diagrams.specs.Trees.{AreNumbered, AreApart, IsNumberedTree};
ghost use Rattle.mode_diagrams.specs.Agreement.{HasOperandValues, AreToldModes};
ghost use Rattle.mode_diagrams.specs.Lacking.{HavePlacedEvents, PutsTree, HasNoTree, IsFull};
ghost use Rattle.mode_diagrams.specs.Sets.{AreSmall};

use crate::undrawn::Undrawn;
use ar_base::{EventId, Memory};
use diagram_steps::{NumberedEdge, NumberedTree};
use mode_nodes::{DiagramId, Diagrams};
use std::alloc::Global;
use std::collections::HashMap;

/// For each event that a tree has the place of such a tree.
pub(crate) type TreePlaces = HashMap<EventId, u32>;

/// The places of the trees of all events.
pub(crate) fn places(alloc: Global, trees: &[NumberedTree]) -> Result<TreePlaces, Memory>
    requires { length trees.now ≤ 4294967295 }
    ensures { IfOk result (λ places. HavePlacedEvents trees.now (length trees.now) places) }
{
    let mut places = HashMap::new(alloc);
    for (place, tree) in trees.iter().enumerate() {
        put_all(&mut places, &tree.edges, place as u32)?;
    }
    Ok(places)
}

// Puts the place for the events of these edges.
fn put_all(places: &mut TreePlaces, edges: &[NumberedEdge], place: u32) -> Result<(), Memory>
    ensures { OnOk result (PutsTree edges.now place places.old places.new) }
{
    for edge in edges {
        places.insert(edge.event, place)?;
    }
    Ok(())
}

// For each mode of the tree 1 where the event is on the path to it, else 0: what an edge enters has that of what it leaves.
fn told(alloc: Global, tree: &NumberedTree, event: EventId) -> Result<Vec<DiagramId>, Memory>
    requires { IsNumberedTree tree.now }
    ensures { IfOk result (λ ns. AreToldModes tree.now event.n ns.items) }
{
    let mut told = Vec::new(alloc);
    told.push(DiagramId::new(0))?;
    for edge in &tree.edges {
        let next = if edge.event.n == event.n {
            DiagramId::new(1)
        } else {
            told[edge.from as usize]
        };
        told.push(next)?;
    }
    Ok(told)
}

/// The diagram of an event. Beyond comes where the store is full, or where no tree has the event.
pub(crate) fn event_diagram(
    alloc: Global,
    store: &mut Diagrams,
    trees: &[NumberedTree],
    places: &TreePlaces,
    event: EventId,
) -> Result<DiagramId, Undrawn>
    requires numbered { AreNumbered trees.now }
    requires apart { AreApart trees.now }
    requires small { AreSmall trees.now }
    requires placed { HavePlacedEvents trees.now (length trees.now) places.now }
    ensures grows { GrowsWithin store.old store.new }
    ensures agrees { IfOk result (λ n. (gates : List Gate)
        → HasOperandValues trees.now gates (EventIs event.n true) store.new n.n) }
    ensures beyond { result ≡ Err Undrawn.Beyond
        → IsFull store.new.store ⊎ HasNoTree trees.now event.n }
    ensures known { IfOk result (λ _. HasNoTree trees.now event.n → ⊥) }
{
    let Some(place) = places.get(&event).copied() else {
        return Err(Undrawn::Beyond);
    };
    let told = told(alloc, &trees[place as usize], event)?;
    let drawn = store.choice(place, &told)?;
    Ok(drawn)
}
