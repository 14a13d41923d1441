//! Operands and gates over new numbers of events.

ghost use Rattle.std.specs.Prelude.{IfOk, map};
ghost use Rattle.ar_base.specs.Lists.{Along};
ghost use Rattle.eq_core.specs.Views.{gate_of, operand_of};
ghost use Rattle.event_order.specs.Renumbered.{IsRenamed, IsRenamedGate};
ghost use Rattle.event_order.specs.Taking.{AreNumbersOf};

use crate::numbers::Numbers;
use ar_base::Memory;
use eq_core::{Gate, Operand};
use std::alloc::Global;

/// The operand over the new number of its event.
pub(crate) fn renamed(numbers: &Numbers, operand: Operand) -> Operand
    requires { AreNumbersOf numbers.now.names.items numbers.now.numbers }
    ensures { IsRenamed numbers.now.names.items (operand_of operand) (operand_of result) }
{
    match operand {
        Operand::Always => Operand::Always,
        Operand::Never => Operand::Never,
        Operand::Event(event, sign) => Operand::Event(numbers.number_for(event), sign),
        Operand::Gate(gate, sign) => Operand::Gate(gate, sign),
    }
}

// The gate over the new numbers of its events.
fn renamed_gate(alloc: Global, numbers: &Numbers, gate: &Gate) -> Result<Gate, Memory>
    requires { AreNumbersOf numbers.now.names.items numbers.now.numbers }
    ensures { IfOk result (λ g. IsRenamedGate numbers.now.names.items (gate_of gate.now) (gate_of g)) }
{
    let mut operands = Vec::new(alloc);
    for operand in &gate.operands {
        operands.push(renamed(numbers, *operand))?;
    }
    Ok(Gate {
        joint: gate.joint,
        operands,
    })
}

/// The gates over the new numbers of their events.
pub(crate) fn renamed_gates(
    alloc: Global,
    numbers: &Numbers,
    gates: &[Gate],
) -> Result<Vec<Gate>, Memory>
    requires { AreNumbersOf numbers.now.names.items numbers.now.numbers }
    ensures { IfOk result (λ made. Along (IsRenamedGate numbers.now.names.items)
        (map gate_of gates.now) (map gate_of made.items)) }
{
    let mut made = Vec::new(alloc);
    for gate in gates {
        made.push(renamed_gate(alloc, numbers, gate)?)?;
    }
    Ok(made)
}
