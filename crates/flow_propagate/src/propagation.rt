//! What a propagation answers.

ghost use Rattle.std.specs.Prelude.{◌≡◌};
ghost use Rattle.flow_propagate.specs.declared.propagation.PropagateFault.TheVariants as fault;

use ar_base::{AssignId, Memory, VarId};

/// Why a state determines no total valuation: the first of these that applies.
#[derive(Clone, Copy)]
pub enum FlowFault {
    /// The least flow with two values.
    Two(VarId),
    /// The least flow for which a reached assignment yields a value outside its domain.
    Outside(VarId),
    /// The least assignment that is reached under the total valuation and does not have its target's value.
    Broken(AssignId),
}

/// Why no total valuation was given.
#[derive(Clone, Copy)]
pub enum PropagateFault {
    /// The state determines none.
    Flow(FlowFault),
    /// Memory was refused.
    Memory,
}

impl From<Memory> for PropagateFault {
    ghost from_gives = { λ _ e. e ≡ fault.Memory };

    fn from(_memory: Memory) -> Self {
        PropagateFault::Memory
    }
}
