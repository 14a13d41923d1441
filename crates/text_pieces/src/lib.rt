//! Pieces of the texts that a flat system is told by: paths, values, canonical labels, and what a fault of the flows or of a step
//! is.
#![tactic(auto)]

mod faults;
mod labels;
pub mod pieces;

pub use faults::{print_flow_fault, print_step_fault};
pub use labels::print_label;
