//! The gates of a cone, marked.

ghost use Rattle.std.specs.Prelude.{◌<◌, IfOk, map, length, [], ◌∷◌};
ghost use Rattle.eq_core.specs.Ordered.{AreBelow, AreOrdered};
ghost use Rattle.eq_core.specs.ValuesInside.{IsBelow};
ghost use Rattle.eq_core.specs.Views.{gate_of, operand_of};
ghost use Rattle.eq_core.specs.Marks.{AreConeMarks, MarksOperands};

use crate::{Gate, Operand};
use ar_base::Memory;
use std::alloc::Global;

/// For each gate whether it is in the operand's cone: one pass from the last gate to the first. The error is want of memory.
pub fn cone(alloc: Global, gates: &[Gate], root: Operand) -> Result<Vec<bool>, Memory>
    requires ordered { AreOrdered (map gate_of gates.now) }
    requires root_in { IsBelow (length gates.now) (operand_of root) }
    ensures { IfOk result (λ marks. AreConeMarks (map gate_of gates.now) (operand_of root)
        marks.items) }
{
    let mut marks = vec![in alloc; false; gates.len()]?;
    mark(&mut marks, root);
    let mut left = gates.len();
    while left > 0 {
        left -= 1;
        if marks[left] {
            mark_all(&mut marks, &gates[left].operands);
        }
    }
    Ok(marks)
}

// Marks the gate that the operand names.
fn mark(marks: &mut [bool], operand: Operand)
    requires { IsBelow (length marks.old) (operand_of operand) }
    ensures { MarksOperands (operand_of operand ∷ []) marks.old marks.new }
{
    if let Operand::Gate(gate, _) = operand {
        marks[gate.n as usize] = true;
    }
}

// Marks the gates that the operands name.
fn mark_all(marks: &mut [bool], operands: &[Operand])
    requires { AreBelow (length marks.old) (map operand_of operands.now) }
    ensures { MarksOperands (map operand_of operands.now) marks.old marks.new }
{
    for operand in operands {
        mark(marks, *operand);
    }
}
