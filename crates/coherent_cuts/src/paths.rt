//! The events on the path to an event.

ghost use Rattle.std.specs.Prelude.{◌≡◌, ◌≤◌, ◌∷◌, [], IfOk, OnOk, length};
ghost use Rattle.std.specs.List.{All};
ghost use Rattle.zdd_nodes.specs.Nodes.{family, IsFamilyNumber};
ghost use Rattle.diagram_steps.specs.Trees.{edges_of};
ghost use Rattle.diagram_steps.specs.Putting.{Extends};
ghost use Rattle.mode_diagrams.specs.Trees.{IsNumberedTree};
ghost use Rattle.mode_diagrams.specs.Sets.{HasPathEvents};
ghost use Rattle.mode_diagrams.specs.Numbers.{HasFewEdges};
ghost use Rattle.coherent_cuts.specs.Places.{ArePlaced, Puts};

use ar_base::{EventId, Memory};
use diagram_steps::{NumberedEdge, NumberedTree, with_event};
use std::alloc::Global;
use std::collections::HashMap;
use zdd_nodes::{NodeFault, NodeId};
use zdd_ops::Ops;

/// Where the edge of an event stands.
#[derive(Clone, Copy)]
pub(crate) struct EdgePlace {
    /// The place of its tree.
    pub(crate) tree: u32,
    /// The mode that it enters.
    pub(crate) mode: u32,
}

/// For each event that a tree has the place of its edge.
pub(crate) type EdgePlaces = HashMap<EventId, EdgePlace>;

/// The places of the edges of all events.
pub(crate) fn places(alloc: Global, trees: &[NumberedTree]) -> Result<EdgePlaces, Memory>
    requires few { length trees.now ≤ 4294967295 }
    requires small { All HasFewEdges trees.now }
    ensures { IfOk result (λ places. ArePlaced trees.now (length trees.now) places) }
{
    let mut places = HashMap::new(alloc);
    for (place, tree) in trees.iter().enumerate() {
        put_all(&mut places, tree.edges.as_slice(), place as u32)?;
    }
    Ok(places)
}

// Puts the places of the edges of one tree.
fn put_all(places: &mut EdgePlaces, edges: &[NumberedEdge], tree: u32) -> Result<(), Memory>
    requires { length edges.now ≤ 64 }
    ensures { OnOk result (Puts edges.now tree places.old places.new) }
{
    for (place, edge) in edges.iter().enumerate() {
        let mode = place as u32 + 1;
        places.insert(edge.event, EdgePlace { tree, mode })?;
    }
    Ok(())
}

/// The family of one set: the events on the path to the mode.
pub(crate) fn path_to(ops: &mut Ops, tree: &NumberedTree, mode: u32) -> Result<NodeId, NodeFault>
    requires numbered { IsNumberedTree tree.now }
    requires mode { mode ≤ length (edges_of tree.now) }
    ensures grows { Extends ops.old ops.new }
    ensures in_store { IfOk result (λ n. IsFamilyNumber ops.new n.n) }
    ensures path { IfOk result (λ n. HasPathEvents (edges_of tree.now) mode ([] ∷ []) (family ops.new n.n)) }
{
    if mode == 0 {
        return Ok(NodeId::new(1));
    }
    let edge = tree.edges[mode as usize - 1];
    let before = path_to(ops, tree, edge.from)?;
    with_event(ops, before, edge.event)
}
