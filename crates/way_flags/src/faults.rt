//! Why nothing is received.

ghost use Rattle.std.specs.Prelude.{◌≡◌};
ghost use Rattle.way_flags.specs.declared.faults.ReceiveFault.TheVariants as fault;

use ar_base::{Memory, VarId};

/// Why nothing is received: the first of these that applies.
#[derive(Clone, Copy)]
pub enum ReceiveFault {
    /// The least variable that receives two different values.
    Clash(VarId),
    /// The least variable that receives a value outside its domain.
    Range(VarId),
    /// Memory was refused.
    Memory,
}

impl From<Memory> for ReceiveFault {
    ghost from_gives = { λ _ e. e ≡ fault.Memory };

    fn from(_memory: Memory) -> ReceiveFault {
        ReceiveFault::Memory
    }
}
