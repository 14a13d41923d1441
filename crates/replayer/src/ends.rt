//! How a replay ends.

use ar_base::Memory;
use ar_io::SinkFailed;

/// How a run ends.
#[derive(Clone, Copy)]
pub enum End {
    /// At the end of its commands.
    Done,
    /// In a fault.
    Fault,
}

/// Why a replay was broken off.
#[derive(Clone, Copy)]
pub enum ReplayFault {
    /// The sink failed.
    Write,
    /// Memory was refused.
    Memory,
}

impl From<SinkFailed> for ReplayFault {
    ghost use Rattle.std.specs.Prelude.{◌≡◌};
    ghost use Rattle.replayer.specs.declared.ends.ReplayFault.TheVariants as fault;

    ghost from_gives = { λ _ e. e ≡ fault.Write };

    fn from(_failed: SinkFailed) -> Self {
        ReplayFault::Write
    }
}

impl From<Memory> for ReplayFault {
    ghost use Rattle.std.specs.Prelude.{◌≡◌};
    ghost use Rattle.replayer.specs.declared.ends.ReplayFault.TheVariants as fault;

    ghost from_gives = { λ _ e. e ≡ fault.Memory };

    fn from(_memory: Memory) -> Self {
        ReplayFault::Memory
    }
}
