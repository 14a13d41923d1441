//! The union of many families.

ghost use Rattle.std.specs.Prelude.{◌≡◌, Err, IfOk};
ghost use Rattle.zdd_nodes.specs.Nodes.{family, IsFamilyNumber};
ghost use Rattle.diagram_steps.specs.Putting.{Extends, IsAtLimit};
ghost use Rattle.named_families.specs.Named.{AreNumbers, HasAllSets};

use zdd_nodes::{NodeFault, NodeId};
use zdd_ops::Ops;

/// The union of these families: of the first half of them, and of the others. Made so, and not one after the other, it takes
/// few nodes where each family has sets behind those of the next.
pub(crate) fn union_of(ops: &mut Ops, parts: &[NodeId]) -> Result<NodeId, NodeFault>
    requires numbers { AreNumbers ops.old parts.now }
    ensures grows { Extends ops.old ops.new }
    ensures in_store { IfOk result (λ n. IsFamilyNumber ops.new n.n) }
    ensures sets { IfOk result (λ n. HasAllSets ops.old parts.now (family ops.new n.n)) }
    ensures full { result ≡ Err NodeFault.Full → IsAtLimit ops.new }
{
    if parts.len() == 0 {
        return Ok(NodeId::new(0));
    }
    if parts.len() == 1 {
        return Ok(parts[0]);
    }
    let (first, others) = parts.split_at(parts.len() / 2);
    let lower = union_of(ops, first)?;
    let upper = union_of(ops, others)?;
    ops.union(lower, upper)
}
