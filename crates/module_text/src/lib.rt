//! The text of cuts in short: the units whose sets of events may be exchanged, and the short forms of the cuts.
#![tactic(auto)]

mod arranging;
pub mod laws;
mod places;
mod printing;
mod spans;

pub use printing::print_modules;
pub use spans::ranges;
