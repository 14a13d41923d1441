//! The family of an operand, with those of the gates that it rests on.

ghost use Rattle.std.specs.Prelude.{◌≡◌, map, length, cond, true, []};
ghost use Rattle.zdd_nodes.specs.FamiliesInside.{IsInOrder};
ghost use Rattle.zdd_nodes.specs.Nodes.{family, IsFamilyNumber, Draws};
ghost use Rattle.eq_core.specs.Gates.{GateIs};
ghost use Rattle.eq_core.specs.Ordered.{AreOrdered};
ghost use Rattle.eq_core.specs.ValuesInside.{IsBelow};
ghost use Rattle.eq_core.specs.Views.{gate_of, operand_of};
ghost use Rattle.gate_diagrams.specs.Needed.{family_at, IsNeeded};
ghost use Rattle.gate_diagrams.specs.Drawing.{IsGateReady};

use crate::gates::{gate, operand};
use eq_core::{Gate, Operand, cone};
use std::alloc::Global;
use zdd_nodes::{NodeFault, NodeId};
use zdd_ops::Ops;

/// The family of the firable sets at which the operand is true. Each gate of its cone is drawn once, and no other.
pub(crate) fn draw(
    alloc: Global,
    ops: &mut Ops,
    gates: &[Gate],
    firable: NodeId,
    root: Operand,
) -> Result<NodeId, NodeFault>
    requires firable_in { IsFamilyNumber ops.old firable.n }
    requires in_order { IsInOrder (family ops.old firable.n) }
    requires ordered { AreOrdered (map gate_of gates.now) }
    requires root_in { IsBelow (length gates.now) (operand_of root) }
    ensures drawn { Draws (IsNeeded (family ops.old firable.n) (map gate_of gates.now)
        (operand_of root))
        (family_at (family ops.old firable.n) (map gate_of gates.now) (operand_of root)) ops.old
        ops.new result }
{
    let marks = cone(alloc, gates, root)?;
    let mut table = Vec::new(alloc);
    for (number, next) in gates.iter().enumerate() {
        let drawn = next_gate(ops, gates, root, &table, firable, next, marks[number])?;
        table.push(drawn)?;
    }
    operand(ops, gates, root, &table, firable, root)
}

// The family of the next gate, where it is marked, else the empty family.
fn next_gate(
    ops: &mut Ops,
    gates: &[Gate],
    root: Operand,
    table: &[NodeId],
    firable: NodeId,
    next: &Gate,
    marked: bool,
) -> Result<NodeId, NodeFault>
    requires firable_in { IsFamilyNumber ops.old firable.n }
    requires ready { marked ≡ true → IsGateReady (family ops.old firable.n) (map gate_of gates.now)
        (operand_of root)
        (length table.now) (gate_of next.now) table.now ops.old }
    ensures drawn { Draws (IsNeeded (family ops.old firable.n) (map gate_of gates.now)
        (operand_of root))
        (cond marked (family_at (family ops.old firable.n) (map gate_of gates.now)
        (GateIs (length table.now) true)) [])
        ops.old ops.new result }
{
    if marked {
        gate(ops, gates, root, table, firable, next)
    } else {
        Ok(NodeId::new(0))
    }
}
