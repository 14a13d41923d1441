//! Entries, and the gates that they are made of.

ghost use Rattle.std.specs.Prelude.{◌≡◌, ◌≤◌, ◌<◌, length, []};
ghost use Rattle.eq_core.specs.Gates.{joined};
ghost use Rattle.eq_core.specs.Views.{all_needed, operand_of};
ghost use Rattle.eq_build.specs.Entries.{one_of_alls, operand_for};
ghost use Rattle.eq_build.specs.BuildsInside.{most_gates};
ghost use Rattle.eq_build.specs.Views.{operands_in, gates_in, terms_in, entries_in, MakesOperand};
ghost use Rattle.eq_build.specs.declared.entries.BuildFault.TheVariants as fault;

use ar_base::Memory;
use domains::Value;
use eq_core::{Gate, Joint, Operand, join};
use std::alloc::{AllocError, AllocFailed, Global};

/// The most gates that a table may have.
pub const MOST_GATES: usize = 2_000_000;

/// A value, and the operand that tells where it is taken.
#[derive(Clone, Copy, PartialEq, Eq)]
pub struct Entry {
    /// The value.
    pub value: Value,
    /// True exactly where the value is taken.
    pub operand: Operand,
}

/// Why nothing was built.
#[derive(Clone, Copy)]
pub enum BuildFault {
    /// More gates are needed than a table may have.
    Gates,
    /// Memory was refused.
    Memory,
}

impl From<Memory> for BuildFault {
    ghost from_gives = { λ _ e. e ≡ fault.Memory };

    fn from(_memory: Memory) -> Self {
        BuildFault::Memory
    }
}

impl From<AllocError> for BuildFault {
    ghost from_gives = { λ _ e. e ≡ fault.Memory };

    fn from(_error: AllocError) -> Self {
        BuildFault::Memory
    }
}

impl<T: Drop> From<AllocFailed<T>> for BuildFault {
    ghost from_gives = { λ _ e. e ≡ fault.Memory };

    fn from(_failed: AllocFailed<T>) -> Self {
        BuildFault::Memory
    }
}

/// All of the operands, or one of them. Gates comes only where that makes more gates than a table may have.
pub fn made(
    alloc: Global,
    gates: &mut Vec<Gate>,
    joint: Joint,
    operands: &[Operand],
) -> Result<Operand, BuildFault>
    requires { length gates.old.items ≤ most_gates }
    ensures { MakesOperand (joined (all_needed joint) (gates_in gates.old.items) []
        (operands_in operands.now))
        result gates.new.items }
{
    let operand = join(alloc, gates, joint, operands)?;
    if gates.len() > MOST_GATES {
        return Err(BuildFault::Gates);
    }
    Ok(operand)
}

/// One of the terms, all of its operands. Gates comes only where that makes more gates than a table may have.
pub fn one_of_alls(
    alloc: Global,
    gates: &mut Vec<Gate>,
    terms: &[Vec<Operand>],
) -> Result<Operand, BuildFault>
    requires { length gates.old.items ≤ most_gates }
    ensures { MakesOperand (one_of_alls (gates_in gates.old.items) (terms_in terms.now)) result
        gates.new.items }
{
    let mut all = Vec::new(alloc);
    for term in terms {
        let operand = made(alloc, gates, Joint::And, term)?;
        all.push(operand)?;
    }
    made(alloc, gates, Joint::Or, &all)
}

/// The operand of a value, Never where no entry has it.
pub fn operand_for(entries: &[Entry], value: Value) -> Operand
    ensures { operand_of result ≡ operand_for (entries_in entries.now) value }
{
    for entry in entries {
        if entry.value == value {
            return entry.operand;
        }
    }
    Operand::Never
}
