//! Simplified tables of gates: smaller ones with the same values, for drawing.
#![tactic(auto)]

mod absorbing;
mod literals;
mod sharing;
mod tables;
mod terms;
mod unshared;
mod votes;

pub use tables::simplified;
