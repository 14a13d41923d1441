//! What is left of a gate beside literals that are all needed with it.

ghost use Rattle.std.specs.Prelude.{◌≡◌, ◌++◌, map, true, IfOk, MatchOption};
ghost use Rattle.ar_base.specs.Lists.{IsOneOf};
ghost use Rattle.eq_core.specs.Views.{gate_of, operand_of};
ghost use Rattle.gate_sharing.specs.Absorbing.{needed_parts, IsBeside, AreEnoughBeside, AreNeverBeside};
ghost use Rattle.gate_sharing.specs.Literals.{literal_of, literal_operands};

use crate::literals::{Literal, for_joint, negated};
use ar_base::Memory;
use eq_core::{Gate, Operand};
use std::alloc::Global;

// The most operands of a gate that is looked through: so each gate costs no more than a fixed number of steps.
const MOST_PARTS: usize = 32;

/// Whether the gate has few operands, and one of the literals has the event or the gate of one of them.
pub(crate) fn is_over_one(gate: &Gate, literals: &[Literal]) -> bool {
    if gate.operands.len() > MOST_PARTS {
        return false;
    }
    gate.operands
        .iter()
        .any(|operand| is_over(*operand, literals))
}

// Whether one of the literals has the operand's event or gate.
fn is_over(operand: Operand, literals: &[Literal]) -> bool {
    literals.iter().any(|literal| match (literal, operand) {
        (Literal::Event(event, _), Operand::Event(other, _)) => *event == other.n,
        (Literal::Gate(gate, _), Operand::Gate(other, _)) => *gate == other.n,
        _ => false,
    })
}

/// What of a gate's parts is needed beside literals that are needed anyway, those before a place and those behind it: a part
/// that is one of them is left out. None where the opposite of a part is one of them, so that not all can be true.
pub(crate) fn left_beside(
    alloc: Global,
    gate: &Gate,
    before: &[Literal],
    after: &[Literal],
) -> Result<Option<Vec<Literal>>, Memory>
    ensures { IfOk result (λ found. let others = literal_operands (before.now ++ after.now) in
        MatchOption found (AreNeverBeside others (needed_parts (gate_of gate.now)))
        (λ left. AreEnoughBeside others (needed_parts (gate_of gate.now)) (literal_operands left.items))) }
{
    let mut left = Vec::new(alloc);
    for operand in &gate.operands {
        match beside(for_joint(gate.joint, *operand), before, after) {
            Operand::Always => {}
            Operand::Never => return Ok(None),
            Operand::Event(event, sign) => left.push(Literal::Event(event.n, sign))?,
            Operand::Gate(gate, sign) => left.push(Literal::Gate(gate.n, sign))?,
        }
    }
    Ok(Some(left))
}

// The operand, or the constant that it is wherever all of these literals are true.
fn beside(operand: Operand, before: &[Literal], after: &[Literal]) -> Operand
    ensures { IsBeside (literal_operands (before.now ++ after.now)) (operand_of operand) (operand_of result) }
{
    if has(before, after, operand) {
        return Operand::Always;
    }
    if has(before, after, negated(operand)) {
        return Operand::Never;
    }
    operand
}

// Whether the operand is one of these literals.
fn has(before: &[Literal], after: &[Literal], operand: Operand) -> bool
    ensures { result ≡ true → IsOneOf (literal_operands (before.now ++ after.now)) (operand_of operand) }
{
    let literal = match operand {
        Operand::Always => return false,
        Operand::Never => return false,
        Operand::Event(event, sign) => Literal::Event(event.n, sign),
        Operand::Gate(gate, sign) => Literal::Gate(gate.n, sign),
    };
    before.contains(&literal) || after.contains(&literal)
}
