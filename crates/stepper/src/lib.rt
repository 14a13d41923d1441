//! Steps of a flat system: which ways can fire, what firing one gives, and the way back.
#![tactic(auto)]

mod changes;
mod faults;
mod keeping;
mod moves;
mod stepper;

pub use faults::{NoStep, StepFault};
pub use stepper::Stepper;
