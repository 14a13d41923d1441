//! The events of a path in front of the sets of a family.

ghost use Rattle.std.specs.Prelude.{◌≤◌, IfOk, length};
ghost use Rattle.zdd_nodes.specs.Nodes.{family, IsFamilyNumber};
ghost use Rattle.diagram_steps.specs.Trees.{edges_of};
ghost use Rattle.diagram_steps.specs.Putting.{Extends};
ghost use Rattle.mode_diagrams.specs.Trees.{IsNumberedTree};
ghost use Rattle.mode_diagrams.specs.Sets.{HasPathEvents};

use diagram_steps::{NumberedTree, with_event};
use zdd_nodes::{NodeFault, NodeId};
use zdd_ops::Ops;

/// The family of the sets, each with the events on the path to the mode.
pub(crate) fn with_path(
    ops: &mut Ops,
    tree: &NumberedTree,
    mode: u32,
    sets: NodeId,
) -> Result<NodeId, NodeFault>
    requires numbered { IsNumberedTree tree.now }
    requires mode { mode ≤ length (edges_of tree.now) }
    requires sets_in { IsFamilyNumber ops.old sets.n }
    ensures grows { Extends ops.old ops.new }
    ensures in_store { IfOk result (λ n. IsFamilyNumber ops.new n.n) }
    ensures sets { IfOk result (λ n. HasPathEvents (edges_of tree.now) mode (family ops.old sets.n)
        (family ops.new n.n)) }
{
    if mode == 0 {
        return Ok(sets);
    }
    let edge = tree.edges[mode as usize - 1];
    let before = with_path(ops, tree, edge.from, sets)?;
    with_event(ops, before, edge.event)
}
