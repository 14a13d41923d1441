//! The text of a check of a list of cuts.
#![tactic(auto)]

pub mod laws;
mod printing;
mod short;

pub use printing::{CheckedList, print_check};
pub use short::short_chains;
