//! Gates over events, and their values at a set of events.
#![tactic(auto)]

mod cones;
mod joints;

pub use cones::cone;
pub use joints::{Equations, Gate, Joint, Operand, join, joined_in_order};
