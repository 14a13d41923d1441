//! Whether an operand rests on no negation.

ghost use Rattle.std.specs.Prelude.{◌≡◌, ◌↔◌, IfOk, length, map, true};
ghost use Rattle.eq_core.specs.Ordered.{AreOrdered};
ghost use Rattle.eq_core.specs.ValuesInside.{IsBelow};
ghost use Rattle.eq_core.specs.Views.{gate_of, operand_of};
ghost use Rattle.coherent_cuts.specs.Coherent.{IsPlain, ArePlain, IsCoherent};

use ar_base::Memory;
use eq_core::{Gate, Operand, cone};
use std::alloc::Global;

/// Whether neither the operand nor an operand of a gate that it rests on is negated. Then more events never make it false. The
/// error is want of memory.
pub fn is_coherent(alloc: Global, gates: &[Gate], root: Operand) -> Result<bool, Memory>
    requires ordered { AreOrdered (map gate_of gates.now) }
    requires root_in { IsBelow (length gates.now) (operand_of root) }
    ensures { IfOk result (λ b. (b ≡ true) ↔ IsCoherent (map gate_of gates.now) (operand_of root)) }
{
    if !is_plain(root) {
        return Ok(false);
    }
    let marks = cone(alloc, gates, root)?;
    for (number, gate) in gates.iter().enumerate() {
        if marks[number] && !are_plain(&gate.operands) {
            return Ok(false);
        }
    }
    Ok(true)
}

// Whether the operand has no sign.
fn is_plain(operand: Operand) -> bool
    ensures { (result ≡ true) ↔ IsPlain (operand_of operand) }
{
    match operand {
        Operand::Always | Operand::Never => true,
        Operand::Event(_, sign) => sign,
        Operand::Gate(_, sign) => sign,
    }
}

// Whether none of the operands has a sign.
fn are_plain(operands: &[Operand]) -> bool
    ensures { (result ≡ true) ↔ ArePlain (map operand_of operands.now) }
{
    for operand in operands {
        if !is_plain(*operand) {
            return false;
        }
    }
    true
}
