//! The text of why flows have their values.
#![tactic(auto)]

pub mod laws;
mod lines;
mod printing;
mod telling;

pub use printing::print_reasons;
