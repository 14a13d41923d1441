//! An event in all sets of a family.

ghost use Rattle.std.specs.Prelude.{◌≡◌, IfOk};
ghost use Rattle.zdd_nodes.specs.Nodes.{family, IsFamilyNumber};
ghost use Rattle.diagram_steps.specs.Putting.{Extends, HasWith, IsAtLimit};

use ar_base::EventId;
use zdd_nodes::{NodeFault, NodeId};
use zdd_ops::Ops;

/// The family of the sets, each with the event. Full comes only where the store has its limit of nodes; who calls this has
/// another way to the answer then. Older numbers keep their families, also where the answer is a fault.
pub fn with_event(ops: &mut Ops, sets: NodeId, event: EventId) -> Result<NodeId, NodeFault>
    requires { IsFamilyNumber ops.old sets.n }
    ensures grows { Extends ops.old ops.new }
    ensures in_store { IfOk result (λ n. IsFamilyNumber ops.new n.n) }
    ensures sets { IfOk result (λ n. HasWith event.n (family ops.old sets.n) (family ops.new n.n)) }
    ensures full { result ≡ Err NodeFault.Full → IsAtLimit ops.new }
{
    let none = NodeId::new(0);
    let Some((first, lo, hi)) = ops.store().split(sets) else {
        if sets.n == 0 {
            return Ok(sets);
        }
        return ops.node(event, none, sets);
    };
    if event.n < first.n {
        return ops.node(event, none, sets);
    }
    if event.n == first.n {
        let both = ops.union(lo, hi)?;
        return ops.node(event, none, both);
    }
    let lower = with_event(ops, lo, event)?;
    let upper = with_event(ops, hi, event)?;
    ops.node(first, lower, upper)
}
