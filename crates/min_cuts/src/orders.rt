//! The order in which events fire: by the number of the mode variable, then from the tree's root downward.

ghost use Rattle.std.specs.Prelude.{◌≡◌, ◌<◌, ◌≤◌, ◌++◌, ℕ, IfOk, OnOk, map, length, slice_index, vec_capacity};
ghost use Rattle.std.specs.Ordering.{nat_cmp};
ghost use Rattle.std.specs.List.Sorted.{IsPermutation, IsSorted};
ghost use Rattle.ar_base.specs.Lists.{Stands, AreDifferent};
ghost use Rattle.mode_trees.specs.Views.{trees_of, edge_row};
ghost use Rattle.min_cuts.specs.Kept.{numbers_of_set, taken_events, edge_events, AreEventPlaces};

use crate::steps::Step;
use ar_base::{EventId, Memory};
use mode_trees::{Edge, Forest};
use std::alloc::Global;

/// The events of all edges, tree by tree.
pub(crate) fn order_of(alloc: Global, forest: &Forest) -> Result<Vec<EventId>, Memory>
    ensures { IfOk result (λ order.
        numbers_of_set order.items ≡ edge_events (trees_of (λ n. n) forest.now)) }
{
    let mut order = Vec::new(alloc);
    for tree in &forest.trees {
        add_events(&mut order, &tree.edges)?;
    }
    Ok(order)
}

// Puts the events of the edges behind the others.
fn add_events(order: &mut Vec<EventId>, edges: &[Edge]) -> Result<(), Memory>
    ensures { OnOk result (numbers_of_set order.new.items
        ≡ numbers_of_set order.old.items ++ map (λ e. (edge_row (λ n. n) e).label.event) edges.now) }
{
    for edge in edges {
        order.push(edge.event)?;
    }
    Ok(())
}

/// For each event its place in the order; for a number that is no event's, some number.
pub(crate) fn places_of(alloc: Global, order: &[EventId]) -> Result<Vec<usize>, Memory>
    requires { AreDifferent (numbers_of_set order.now) }
    ensures { IfOk result (λ places. AreEventPlaces (numbers_of_set order.now) places.items) }
{
    let mut places = vec![in alloc; 0_usize; bound(order)]?;
    for (place, event) in order.iter().enumerate() {
        places[event.n as usize] = place;
    }
    Ok(places)
}

// A number that is above those of the events.
fn bound(order: &[EventId]) -> usize
    ensures { (k e : ℕ) → Stands (numbers_of_set order.now) k e → e < result }
{
    let mut bound: usize = 0;
    for event in order {
        bound = bound.max(event.n as usize + 1);
    }
    bound
}

/// The places of the steps' events, ascending. There is room for them, so that it takes no memory.
pub(crate) fn find_spots(steps: &[Step], places: &[usize], spots: &mut Vec<usize>)
    requires placed { (k e : ℕ) → Stands (taken_events steps.now) k e → e < length places.now }
    requires room { length steps.now ≤ vec_capacity spots.old }
    ensures spots { IsPermutation (map (λ e. slice_index places.now e) (taken_events steps.now))
        spots.new.items }
    ensures sorted { IsSorted nat_cmp spots.new.items }
    ensures capacity { vec_capacity spots.old ≤ vec_capacity spots.new }
{
    spots.clear();
    for step in steps {
        let _ = spots.push(places[step.event.n as usize]);
    }
    spots.sort_unstable();
}

/// The events at these places of the order. There is room for them, so that it takes no memory.
pub(crate) fn name_spots(order: &[EventId], spots: &[usize], given: &mut Vec<EventId>)
    requires inside { (k p : ℕ) → Stands spots.now k p → p < length order.now }
    requires room { length spots.now ≤ vec_capacity given.old }
    ensures given { numbers_of_set given.new.items
        ≡ map (λ p. slice_index (numbers_of_set order.now) p) spots.now }
    ensures capacity { vec_capacity given.old ≤ vec_capacity given.new }
{
    given.clear();
    for spot in spots {
        let _ = given.push(order[*spot]);
    }
}
