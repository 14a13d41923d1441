//! Why a script or a list of cuts is refused.

use ar_base::Memory;
use std::alloc::AllocFailed;

/// Why a script gives no commands. Lines count from 1.
#[derive(Clone, Copy)]
pub enum ScriptFault {
    /// The line is no command.
    Line(u32),
    /// The label in the line names no way of a visible event.
    Unknown(u32),
    /// The label in the line is the path of an event with two ways or more, and does not say which.
    Which(u32),
    /// Memory was refused.
    Memory,
}

impl From<Memory> for ScriptFault {
    ghost use Rattle.std.specs.Prelude.{◌≡◌};
    ghost use Rattle.job_inputs.specs.declared.faults.ScriptFault.TheVariants as fault;

    ghost from_gives = { λ _ e. e ≡ fault.Memory };

    fn from(_memory: Memory) -> Self {
        ScriptFault::Memory
    }
}

impl<T: Drop> From<AllocFailed<T>> for ScriptFault {
    ghost use Rattle.std.specs.Prelude.{◌≡◌};
    ghost use Rattle.job_inputs.specs.declared.faults.ScriptFault.TheVariants as fault;

    ghost from_gives = { λ _ e. e ≡ fault.Memory };

    fn from(_failed: AllocFailed<T>) -> Self {
        ScriptFault::Memory
    }
}
