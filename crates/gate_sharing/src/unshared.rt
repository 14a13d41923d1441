//! Why there is no simplified table.

use ar_base::Memory;
use std::alloc::AllocFailed;

/// Why there is no simplified table.
#[derive(Clone, Copy)]
pub(crate) enum Unshared {
    /// It would have more gates than there are numbers for gates.
    Gates,
    /// Memory was refused.
    Memory(Memory),
}

impl From<Memory> for Unshared {
    ghost use Rattle.std.specs.Prelude.{◌≡◌};
    ghost use Rattle.gate_sharing.specs.declared.unshared.Unshared.TheVariants as unshared;

    ghost from_gives = { λ memory e. e ≡ unshared.Memory memory };

    fn from(memory: Memory) -> Self {
        Unshared::Memory(memory)
    }
}

impl<T: Drop> From<AllocFailed<T>> for Unshared {
    fn from(failed: AllocFailed<T>) -> Self {
        Unshared::Memory(failed.into())
    }
}
