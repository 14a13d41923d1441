//! Events that are on no one path of their tree.

ghost use Rattle.std.specs.Prelude.{◌≡◌, ◌↔◌, ◌≤◌, ◌<◌, ◌&&◌, ◌||◌, ℕ, List, true, IfOk, length};
ghost use Rattle.zdd_nodes.specs.Families.{holds};
ghost use Rattle.zdd_nodes.specs.Nodes.{family, IsFamilyNumber};
ghost use Rattle.diagram_steps.specs.Trees.{edges_of};
ghost use Rattle.diagram_steps.specs.Putting.{Extends};
ghost use Rattle.mode_diagrams.specs.Trees.{IsNumberedTree, IsOnPath, AreNumbered};
ghost use Rattle.least_families.specs.Least.{covers};
ghost use Rattle.coherent_cuts.specs.Exclusive.{HasExclusive, AddsPairs, AddsPairsOf};

use ar_base::EventId;
use diagram_steps::{NumberedTree, with_event};
use zdd_nodes::{NodeFault, NodeId};
use zdd_ops::Ops;

/// The family of the pairs of events of one tree that are on no one path. They are put in from the last tree to the first, so
/// that each pair takes few nodes.
pub(crate) fn exclusive_pairs(ops: &mut Ops, trees: &[NumberedTree]) -> Result<NodeId, NodeFault>
    requires numbered { AreNumbered trees.now }
    ensures grows { Extends ops.old ops.new }
    ensures in_store { IfOk result (λ n. IsFamilyNumber ops.new n.n) }
    ensures pairs { IfOk result (λ n. HasExclusive trees.now (family ops.new n.n)) }
{
    let mut pairs = NodeId::new(0);
    let mut left = trees.len();
    while left > 0 {
        left -= 1;
        pairs = with_pairs(ops, pairs, &trees[left])?;
    }
    Ok(pairs)
}

// Whether the event is on the path to the mode.
fn is_on_path(tree: &NumberedTree, event: EventId, mode: usize) -> bool
    requires numbered { IsNumberedTree tree.now }
    requires mode { mode ≤ length (edges_of tree.now) }
    ensures { (result ≡ true) ↔ IsOnPath (edges_of tree.now) event.n mode }
{
    let mut at = mode;
    while at > 0 {
        let edge = tree.edges[at - 1];
        if edge.event.n == event.n {
            return true;
        }
        at = edge.from as usize;
    }
    false
}

// The family with one more set, that of two events.
fn with_pair(
    ops: &mut Ops,
    pairs: NodeId,
    first: EventId,
    second: EventId,
) -> Result<NodeId, NodeFault>
    requires in_store { IsFamilyNumber ops.old pairs.n }
    ensures grows { Extends ops.old ops.new }
    ensures in_store { IfOk result (λ n. IsFamilyNumber ops.new n.n) }
    ensures pair { IfOk result (λ n. (s : List ℕ) → covers (family ops.new n.n) s
        ≡ (covers (family ops.old pairs.n) s || (holds first.n s && holds second.n s))) }
{
    let one = ops.node(second, NodeId::new(0), NodeId::new(1))?;
    let pair = with_event(ops, one, first)?;
    ops.union(pairs, pair)
}

// The family with the pairs of the event of this edge and of the event of a later edge, to the mode of which the path goes
// without the first event.
fn with_pairs_of(
    ops: &mut Ops,
    pairs: NodeId,
    tree: &NumberedTree,
    first: usize,
) -> Result<NodeId, NodeFault>
    requires numbered { IsNumberedTree tree.now }
    requires first { first < length (edges_of tree.now) }
    requires in_store { IsFamilyNumber ops.old pairs.n }
    ensures grows { Extends ops.old ops.new }
    ensures in_store { IfOk result (λ n. IsFamilyNumber ops.new n.n) }
    ensures pairs { IfOk result (λ n. AddsPairsOf (edges_of tree.now) first
        (family ops.old pairs.n) (family ops.new n.n)) }
{
    let event = tree.edges[first].event;
    let mut pairs = pairs;
    let mut second = tree.edges.len();
    while second > first + 1 {
        second -= 1;
        if !is_on_path(tree, event, second + 1) {
            pairs = with_pair(ops, pairs, event, tree.edges[second].event)?;
        }
    }
    Ok(pairs)
}

// The family with the pairs of events of one tree that are on no one path.
fn with_pairs(ops: &mut Ops, pairs: NodeId, tree: &NumberedTree) -> Result<NodeId, NodeFault>
    requires numbered { IsNumberedTree tree.now }
    requires in_store { IsFamilyNumber ops.old pairs.n }
    ensures grows { Extends ops.old ops.new }
    ensures in_store { IfOk result (λ n. IsFamilyNumber ops.new n.n) }
    ensures pairs { IfOk result (λ n. AddsPairs (edges_of tree.now)
        (family ops.old pairs.n) (family ops.new n.n)) }
{
    let mut pairs = pairs;
    let mut first = tree.edges.len();
    while first > 0 {
        first -= 1;
        pairs = with_pairs_of(ops, pairs, tree, first)?;
    }
    Ok(pairs)
}
