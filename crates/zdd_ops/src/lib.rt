//! Operations on families of sets of events.
//!
//! A family is a number of the store that `Ops` owns. Each operation adds only nodes that its result can need,
//! and keeps the families of older numbers, also where it refuses.
#![tactic(auto)]

mod cut;
mod halving;
mod memo;
mod ops;

pub use ops::Ops;
