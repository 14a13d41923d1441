//! Why a system has no forest.

ghost use Rattle.std.specs.Prelude.{◌≡◌};
ghost use Rattle.static_fragment.specs.declared.faults.FragmentFault.TheVariants as fault;

use ar_base::{EventId, Memory, UnitId, VarId};

/// What a broken rule is shown with.
#[derive(Clone, Copy)]
pub enum Spot {
    /// An event.
    Event(EventId),
    /// A unit.
    Unit(UnitId),
    /// A variable: a mode variable, or a flow.
    Variable(VarId),
    /// The observer of this number.
    Observer(u32),
    /// The whole model.
    Whole,
}

/// Why there is no forest.
#[derive(Clone, Copy)]
pub enum FragmentFault {
    /// The rule of this number is broken, and each lesser one is kept. It is shown with the first
    /// thing that breaks it.
    Outside(u8, Spot),
    /// Memory was refused.
    Memory,
}

impl From<Memory> for FragmentFault {
    ghost from_gives = { λ _ e. e ≡ fault.Memory };

    fn from(_memory: Memory) -> Self {
        FragmentFault::Memory
    }
}
