//! The operands of a gate, and its line.

ghost use Rattle.std.specs.Prelude.{◌≡◌, ℕ, IfOk, IfErr};
ghost use Rattle.eq_core.specs.Views.{all_needed, operand_of, gate_of};
ghost use Rattle.aralia_text.specs.Texts.{joint_text, gate_line};
ghost use Rattle.aralia_text.specs.Fronts.{AreEventTexts, IsRead, IsStuck, IsAny, PathStops, IsOperandAt, HasOperand, IsSoughtJoint, IsGateAt, operands_line};

use crate::fronts::{Stuck, begins_with, literal, operand};
use crate::printing::between;
use ar_base::{Memory, Names};
use eq_core::{Gate, Joint, Operand};
use itoa::Buffer;
use std::alloc::{AllocFailed, Global};

// Why a text was not read on.
#[derive(Clone, Copy)]
pub enum Stop {
    // What is sought does not stand there.
    Stuck(Stuck),
    // Memory was refused.
    Memory,
}

impl From<Stuck> for Stop {
    ghost use Rattle.std.specs.Prelude.{◌≡◌};
    ghost use Rattle.aralia_text.specs.declared.gates.Stop.TheVariants.{Stuck};

    ghost from_gives = { λ stuck e. e ≡ Stuck stuck };

    fn from(stuck: Stuck) -> Self {
        Stop::Stuck(stuck)
    }
}

impl From<Memory> for Stop {
    ghost use Rattle.std.specs.Prelude.{◌≡◌};
    ghost use Rattle.aralia_text.specs.declared.gates.Stop.TheVariants.{Memory};

    ghost from_gives = { λ _ e. e ≡ Memory };

    fn from(_memory: Memory) -> Self {
        Stop::Memory
    }
}

impl<T: Drop> From<AllocFailed<T>> for Stop {
    ghost use Rattle.std.specs.Prelude.{◌≡◌};
    ghost use Rattle.aralia_text.specs.declared.gates.Stop.TheVariants.{Memory};

    ghost from_gives = { λ _ e. e ≡ Memory };

    fn from(_failed: AllocFailed<T>) -> Self {
        Stop::Memory
    }
}

// The line of the gate behind so many others: its name and `:=`, and its operands.
pub fn gate<'a>(
    alloc: Global,
    rest: &'a [u8],
    gates: u32,
    names: &Names,
) -> Result<(Gate, &'a [u8]), Stop>
    requires events { AreEventTexts names.now }
    requires some { HasOperand gates names.now }
    ensures found { IfOk result (λ r.
        IsRead (IsGateAt gates names.now) (gate_line names.now gates) IsAny rest.now (gate_of r.0)
        r.1.now) }
    ensures stuck { IfErr result (λ stop. (stuck : _) → stop ≡ Stop.Stuck stuck
        → IsStuck (IsGateAt gates names.now) (gate_line names.now gates) IsAny rest.now
        stuck.left) }
{
    let mut buffer = Buffer::new();
    let digits = buffer.format(gates as usize + 1).as_bytes();
    let behind = literal(rest, b"g")?;
    let behind = literal(behind, digits)?;
    let behind = literal(behind, b" := ")?;
    operands(alloc, behind, gates, names)
}

// How the operand behind the front is joined to those before.
fn joint(rest: &[u8]) -> Result<(Joint, &[u8]), Stuck>
    ensures found { IfOk result (λ r.
        IsRead IsSoughtJoint joint_text IsAny rest.now (all_needed r.0) r.1.now) }
    ensures stuck { IfErr result (λ stuck. IsStuck IsSoughtJoint joint_text IsAny rest.now stuck.left) }
{
    let behind = literal(rest, b" ")?;
    if begins_with(behind, b'&') {
        let left = literal(behind, b"& ")?;
        return Ok((Joint::And, left));
    }
    let left = literal(behind, b"| ")?;
    Ok((Joint::Or, left))
}

// The operands of a gate and the end of its line.
fn operands<'a>(
    alloc: Global,
    rest: &'a [u8],
    gates: u32,
    names: &Names,
) -> Result<(Gate, &'a [u8]), Stop>
    requires events { AreEventTexts names.now }
    requires some { HasOperand gates names.now }
    ensures found { IfOk result (λ r.
        IsRead (IsGateAt gates names.now) (operands_line names.now) IsAny rest.now (gate_of r.0)
        r.1.now) }
    ensures stuck { IfErr result (λ stop. (stuck : _) → stop ≡ Stop.Stuck stuck
        → IsStuck (IsGateAt gates names.now) (operands_line names.now) IsAny rest.now stuck.left) }
{
    let (first, behind) = operand(rest, gates, names)?;
    let (joint, behind) = joint(behind)?;
    let (second, mut left) = operand(behind, gates, names)?;
    let mut operands = Vec::new(alloc);
    operands.push(first)?;
    operands.push(second)?;
    loop {
        if begins_with(left, b';') {
            let behind = literal(left, b";\n")?;
            return Ok((Gate { joint, operands }, behind));
        }
        let after = literal(left, between(joint).as_bytes())?;
        let (one, behind) = operand(after, gates, names)?;
        operands.push(one)?;
        left = behind;
    }
}
