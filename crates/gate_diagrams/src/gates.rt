//! The families of operands and gates.

ghost use Rattle.std.specs.Prelude.{◌≡◌, ◌<◌, ◌+◌, map, length, take, true};
ghost use Rattle.zdd_nodes.specs.Nodes.{family, IsFamilyNumber, Draws};
ghost use Rattle.eq_core.specs.Gates.{GateIs};
ghost use Rattle.eq_core.specs.Views.{all_needed, gate_of, operand_of};
ghost use Rattle.gate_diagrams.specs.Needed.{family_at, joint_family, IsOperandInCone, IsNeeded};
ghost use Rattle.gate_diagrams.specs.Drawing.{IsGateTabled, IsGateReady};

use eq_core::{Gate, Joint, Operand};
use zdd_nodes::{NodeFault, NodeId};
use zdd_ops::Ops;

/// The family of an operand of the cone of `root`.
pub(crate) fn operand(
    ops: &mut Ops,
    gates: &[Gate],
    root: Operand,
    table: &[NodeId],
    firable: NodeId,
    operand: Operand,
) -> Result<NodeId, NodeFault>
    requires firable_in { IsFamilyNumber ops.old firable.n }
    requires table { IsGateTabled (family ops.old firable.n) (map gate_of gates.now) table.now ops.old
        (operand_of operand) }
    requires named { IsOperandInCone (map gate_of gates.now) (operand_of root) (operand_of operand) }
    ensures drawn { Draws (IsNeeded (family ops.old firable.n) (map gate_of gates.now)
        (operand_of root))
        (family_at (family ops.old firable.n) (map gate_of gates.now) (operand_of operand)) ops.old
        ops.new result }
{
    match operand {
        Operand::Always => Ok(firable),
        Operand::Never => Ok(NodeId::new(0)),
        Operand::Event(event, sign) => {
            let plain = ops.having(firable, event)?;
            if sign {
                return Ok(plain);
            }
            ops.minus(firable, plain)
        }
        Operand::Gate(gate, sign) => {
            let plain = table[gate.n as usize];
            if sign {
                return Ok(plain);
            }
            ops.minus(firable, plain)
        }
    }
}

/// The family of one more of the first operands of the next gate, one of the cone of `root`.
pub(crate) fn one_more(
    ops: &mut Ops,
    gates: &[Gate],
    root: Operand,
    table: &[NodeId],
    firable: NodeId,
    gate: &Gate,
    place: usize,
    so_far: NodeId,
) -> Result<NodeId, NodeFault>
    requires firable_in { IsFamilyNumber ops.old firable.n }
    requires ready { IsGateReady (family ops.old firable.n) (map gate_of gates.now) (operand_of root)
        (length table.now) (gate_of gate.now) table.now ops.old }
    requires place_in { place < length gate.now.operands.items }
    requires so_far_in { IsFamilyNumber ops.old so_far.n }
    requires so_far_is { family ops.old so_far.n
        ≡ joint_family (family ops.old firable.n) (map gate_of gates.now)
        (all_needed gate.now.joint) (take place (map operand_of gate.now.operands.items)) }
    ensures drawn { Draws (IsNeeded (family ops.old firable.n) (map gate_of gates.now)
        (operand_of root))
        (joint_family (family ops.old firable.n) (map gate_of gates.now) (all_needed gate.now.joint)
        (take (place + 1) (map operand_of gate.now.operands.items))) ops.old ops.new result }
{
    let next = operand(ops, gates, root, table, firable, gate.operands[place])?;
    match gate.joint {
        Joint::And => ops.meet(so_far, next),
        Joint::Or => ops.union(so_far, next),
    }
}

/// The family of the next gate, one of the cone of `root`, an operand after the other.
pub(crate) fn gate(
    ops: &mut Ops,
    gates: &[Gate],
    root: Operand,
    table: &[NodeId],
    firable: NodeId,
    gate: &Gate,
) -> Result<NodeId, NodeFault>
    requires firable_in { IsFamilyNumber ops.old firable.n }
    requires ready { IsGateReady (family ops.old firable.n) (map gate_of gates.now) (operand_of root)
        (length table.now) (gate_of gate.now) table.now ops.old }
    ensures drawn { Draws (IsNeeded (family ops.old firable.n) (map gate_of gates.now)
        (operand_of root))
        (family_at (family ops.old firable.n) (map gate_of gates.now)
        (GateIs (length table.now) true)) ops.old ops.new result }
{
    let mut so_far = operand(ops, gates, root, table, firable, gate.operands[0])?;
    for place in 1..gate.operands.len() {
        so_far = one_more(ops, gates, root, table, firable, gate, place, so_far)?;
    }
    Ok(so_far)
}
