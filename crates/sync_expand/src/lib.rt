//! The ways of declared events: each transition is one way, and each synchronisation one for each
//! choice of one way for each of its parts.
#![tactic(auto)]

mod counting;
mod expanding;
pub mod laws;
mod links;
mod numbers;
mod planning;
mod plans;
mod reach;
mod search;

pub use expanding::ways;
pub use plans::{PlanBody, WayPlan};
