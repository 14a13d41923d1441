//! The text of a table of gates: written, and read back.
#![tactic(auto)]

mod fronts;
mod gates;
pub mod laws;
mod printing;
mod reading;

pub use printing::print;
pub use reading::{AraliaFault, read};
