//! Why a text was broken off.

use ar_base::Memory;
use ar_io::SinkFailed;

/// Why a text was broken off.
#[derive(Clone, Copy)]
pub enum PrintFault {
    /// The sink failed.
    Write,
    /// Memory was refused.
    Memory,
}

impl From<SinkFailed> for PrintFault {
    ghost use Rattle.std.specs.Prelude.{◌≡◌};
    ghost use Rattle.cut_text.specs.declared.faults.PrintFault.TheVariants as fault;

    ghost from_gives = { λ _ e. e ≡ fault.Write };

    fn from(_failed: SinkFailed) -> Self {
        PrintFault::Write
    }
}

impl From<Memory> for PrintFault {
    ghost use Rattle.std.specs.Prelude.{◌≡◌};
    ghost use Rattle.cut_text.specs.declared.faults.PrintFault.TheVariants as fault;

    ghost from_gives = { λ _ e. e ≡ fault.Memory };

    fn from(_memory: Memory) -> Self {
        PrintFault::Memory
    }
}
