//! An event in all sets of a family, node by node.

ghost use Rattle.std.specs.Prelude.{◌≡◌, Err, IfOk, OnOk};
ghost use Rattle.zdd_nodes.specs.Nodes.{family, IsFamilyNumber};
ghost use Rattle.diagram_steps.specs.Putting.{Extends, HasWith, IsAtLimit};
ghost use Rattle.named_families.specs.WithEvent.{AreWithEvent};

use ar_base::EventId;
use diagram_steps::with_event;
use std::alloc::Global;
use std::collections::HashMap;
use zdd_nodes::{NodeFault, NodeId, below};
use zdd_ops::Ops;

/// For families the numbers of their sets with the event.
type Put = HashMap<NodeId, NodeId>;

/// The family of the sets, each with the event. Each node is passed once, however many sets it has, also where these have
/// lesser events.
pub(crate) fn put_in_all(
    alloc: Global,
    ops: &mut Ops,
    sets: NodeId,
    event: EventId,
) -> Result<NodeId, NodeFault>
    requires { IsFamilyNumber ops.old sets.n }
    ensures grows { Extends ops.old ops.new }
    ensures in_store { IfOk result (λ n. IsFamilyNumber ops.new n.n) }
    ensures sets { IfOk result (λ n. HasWith event.n (family ops.old sets.n) (family ops.new n.n)) }
    ensures full { result ≡ Err NodeFault.Full → IsAtLimit ops.new }
{
    let mut put = HashMap::new(alloc);
    put_in_halves(ops, &mut put, sets, event)
}

// The same, where some families are held with their numbers.
fn put_in_halves(
    ops: &mut Ops,
    put: &mut Put,
    sets: NodeId,
    event: EventId,
) -> Result<NodeId, NodeFault>
    requires sets_in { IsFamilyNumber ops.old sets.n }
    requires put { AreWithEvent event.n ops.old put.old }
    ensures grows { Extends ops.old ops.new }
    ensures put { OnOk result (AreWithEvent event.n ops.new put.new) }
    ensures in_store { IfOk result (λ n. IsFamilyNumber ops.new n.n) }
    ensures sets { IfOk result (λ n. HasWith event.n (family ops.old sets.n) (family ops.new n.n)) }
    ensures full { result ≡ Err NodeFault.Full → IsAtLimit ops.new }
{
    let Some((first, lo, hi)) = below(ops.store(), event.n, sets) else {
        return with_event(ops, sets, event);
    };
    if let Some(number) = put.get(&sets).copied() {
        return Ok(number);
    }
    let lower = put_in_halves(ops, put, lo, event)?;
    let upper = put_in_halves(ops, put, hi, event)?;
    let made = ops.node(first, lower, upper)?;
    put.insert(sets, made)?;
    Ok(made)
}
