//! The families of operands and gates.

ghost use Rattle.std.specs.Prelude.{◌≡◌, ◌≤◌, List, IfOk, length, map, true};
ghost use Rattle.zdd_nodes.specs.Nodes.{family};
ghost use Rattle.eq_core.specs.Gates.{Gate as GateOf, EventIs};
ghost use Rattle.eq_core.specs.Ordered.{AreBelow};
ghost use Rattle.eq_core.specs.ValuesInside.{IsBelow};
ghost use Rattle.eq_core.specs.Views.{all_needed, operand_of};
ghost use Rattle.mode_diagrams.specs.Trees.{AreNumbered, AreApart};
ghost use Rattle.mode_diagrams.specs.Costs.{HaveDifferentEvents};
ghost use Rattle.least_families.specs.Held.{AreLeastHeld};
ghost use Rattle.least_families.specs.Kept.{KeepsHeld, IsOperand};
ghost use Rattle.coherent_cuts.specs.Places.{ArePlaced};
ghost use Rattle.coherent_cuts.specs.Coherent.{IsPlain, ArePlain};
ghost use Rattle.coherent_cuts.specs.Gates.{IsFamilyOf, IsFamilyOfJoint, IsJoined, AreTabledOperands, IsTabled, EachTabled};

use crate::paths::{EdgePlaces, path_to};
use ar_base::EventId;
use diagram_steps::NumberedTree;
use eq_core::{Gate, Joint, Operand};
use least_families::{Memo, least_up_to, product_least, union_least};
use zdd_nodes::{NodeFault, NodeId};
use zdd_ops::Ops;

/// The family of an operand without a sign, where the table has the families of the gates that it may name.
pub(crate) fn operand_family(
    ops: &mut Ops,
    memo: &mut Memo,
    trees: &[NumberedTree],
    places: &EdgePlaces,
    table: &[NodeId],
    operand: Operand,
    order: Option<u32>,
) -> Result<NodeId, NodeFault>
    requires numbered { AreNumbered trees.now }
    requires apart { AreApart trees.now }
    requires different { HaveDifferentEvents trees.now }
    requires placed { ArePlaced trees.now (length trees.now) places.now }
    requires held { AreLeastHeld memo.old ops.old.families }
    requires table { AreTabledOperands table.now ops.old }
    requires below { IsBelow (length table.now) (operand_of operand) }
    requires plain { IsPlain (operand_of operand) }
    ensures kept { KeepsHeld ops.old memo.new ops.new }
    ensures operand { IfOk result (λ n. IsOperand ops.new n.n) }
    ensures family { IfOk result (λ n. (gates : List GateOf)
        → IsTabled order trees.now gates table.now ops.old (operand_of operand)
        → IsFamilyOf order trees.now gates (operand_of operand) ops.new n.n) }
{
    match operand {
        Operand::Always => Ok(NodeId::new(1)),
        Operand::Never => Ok(NodeId::new(0)),
        Operand::Event(event, _) => event_family(ops, memo, trees, places, event, order),
        Operand::Gate(gate, _) => Ok(table[gate.n as usize]),
    }
}

// The family of an event: the events on the path to it, where these are at most as many as are asked for. No set has an event
// that no tree has.
fn event_family(
    ops: &mut Ops,
    memo: &mut Memo,
    trees: &[NumberedTree],
    places: &EdgePlaces,
    event: EventId,
    order: Option<u32>,
) -> Result<NodeId, NodeFault>
    requires numbered { AreNumbered trees.now }
    requires apart { AreApart trees.now }
    requires different { HaveDifferentEvents trees.now }
    requires placed { ArePlaced trees.now (length trees.now) places.now }
    requires held { AreLeastHeld memo.old ops.old.families }
    ensures kept { KeepsHeld ops.old memo.new ops.new }
    ensures operand { IfOk result (λ n. IsOperand ops.new n.n) }
    ensures family { IfOk result (λ n. (gates : List GateOf)
        → IsFamilyOf order trees.now gates (EventIs event.n true) ops.new n.n) }
{
    let Some(place) = places.get(&event).copied() else {
        return Ok(NodeId::new(0));
    };
    let path = path_to(ops, &trees[place.tree as usize], place.mode)?;
    least_up_to(ops, memo, path, order)
}

// The least sets of both families together, or of either.
fn joined(
    ops: &mut Ops,
    memo: &mut Memo,
    joint: Joint,
    f: NodeId,
    g: NodeId,
    order: Option<u32>,
) -> Result<NodeId, NodeFault>
    requires first { IsOperand ops.old f.n }
    requires second { IsOperand ops.old g.n }
    requires held { AreLeastHeld memo.old ops.old.families }
    ensures kept { KeepsHeld ops.old memo.new ops.new }
    ensures joined { IfOk result (λ n. IsJoined order (all_needed joint) (family ops.old f.n)
        (family ops.old g.n) ops.new n.n) }
{
    match joint {
        Joint::And => product_least(ops, memo, f, g, order),
        Joint::Or => union_least(ops, memo, f, g),
    }
}

/// The family of a gate over operands without signs, from its last operand to its first.
pub(crate) fn gate_family(
    ops: &mut Ops,
    memo: &mut Memo,
    trees: &[NumberedTree],
    places: &EdgePlaces,
    table: &[NodeId],
    gate: &Gate,
    order: Option<u32>,
) -> Result<NodeId, NodeFault>
    requires numbered { AreNumbered trees.now }
    requires apart { AreApart trees.now }
    requires different { HaveDifferentEvents trees.now }
    requires placed { ArePlaced trees.now (length trees.now) places.now }
    requires held { AreLeastHeld memo.old ops.old.families }
    requires table { AreTabledOperands table.now ops.old }
    requires below { AreBelow (length table.now) (map operand_of gate.now.operands.items) }
    requires plain { ArePlain (map operand_of gate.now.operands.items) }
    ensures kept { KeepsHeld ops.old memo.new ops.new }
    ensures operand { IfOk result (λ n. IsOperand ops.new n.n) }
    ensures family { IfOk result (λ n. (gates : List GateOf)
        → EachTabled order trees.now gates table.now ops.old (map operand_of gate.now.operands.items)
        → IsFamilyOfJoint order trees.now gates (all_needed gate.now.joint)
        (map operand_of gate.now.operands.items) ops.new n.n) }
{
    let mut so_far = NodeId::new(u32::from(gate.joint == Joint::And));
    let mut left = gate.operands.len();
    while left > 0 {
        left -= 1;
        let next = operand_family(ops, memo, trees, places, table, gate.operands[left], order)?;
        so_far = joined(ops, memo, gate.joint, next, so_far, order)?;
    }
    Ok(so_far)
}
