//! Why flows have their values: the rounds in which the facts of a state come, the assignment that adds each and the variables
//! that it rests on, and the cone of an observer.
#![tactic(auto)]

mod bringing;
mod cones;
mod fact_marks;
mod known;
pub mod laws;
mod listing;
mod pairs;
mod reason;
mod resting;
mod rounds;
mod seeing;

pub use cones::cone;
pub use listing::reasons;
pub use reason::Reason;
