//! The trees of events.

ghost use Rattle.std.specs.Prelude.{◌≤◌, IfOk, OnOk, length};
ghost use Rattle.mode_diagrams.specs.Lacking.{HavePlacedEvents, PutsTree};

use ar_base::{EventId, Memory};
use diagram_steps::{NumberedEdge, NumberedTree};
use std::alloc::Global;
use std::collections::HashMap;

/// For each event that a tree has the place of such a tree.
pub(crate) type TreePlaces = HashMap<EventId, u32>;

/// The places of the trees of all events.
pub(crate) fn places(alloc: Global, trees: &[NumberedTree]) -> Result<TreePlaces, Memory>
    requires { length trees.now ≤ 4294967295 }
    ensures { IfOk result (λ places. HavePlacedEvents trees.now (length trees.now) places) }
{
    let mut places = HashMap::new(alloc);
    for (place, tree) in trees.iter().enumerate() {
        put_all(&mut places, &tree.edges, place as u32)?;
    }
    Ok(places)
}

// Puts the place for the events of these edges.
fn put_all(places: &mut TreePlaces, edges: &[NumberedEdge], place: u32) -> Result<(), Memory>
    ensures { OnOk result (PutsTree edges.now place places.old places.new) }
{
    for edge in edges {
        places.insert(edge.event, place)?;
    }
    Ok(())
}
