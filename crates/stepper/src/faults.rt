//! Why nothing was done.

ghost use Rattle.std.specs.Prelude.{◌≡◌};
ghost use Rattle.stepper.specs.declared.faults.StepFault.TheVariants as fault;

use ar_base::{Memory, VarId};
use flow_propagate::FlowFault;

/// Why a way was not fired: the first of these that applies.
#[derive(Clone, Copy)]
pub enum StepFault {
    /// The way cannot fire.
    NotEnabled,
    /// The least variable that receives two different values.
    Clash(VarId),
    /// The least variable that receives a value outside its domain.
    Range(VarId),
    /// The fault of the flows of the new state.
    Flow(FlowFault),
    /// Memory was refused.
    Memory,
}

impl From<Memory> for StepFault {
    ghost from_gives = { λ _ e. e ≡ fault.Memory };

    fn from(_memory: Memory) -> StepFault {
        StepFault::Memory
    }
}

/// No step stands that could be taken back.
#[derive(Clone, Copy)]
pub struct NoStep {}
