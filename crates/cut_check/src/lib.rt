//! Checks of lists of cuts: which lines are true, which hold another one, and which sets are listed.
//!
//! Lines are compared as rows of bits over all events. The labels of a line are fired once, from
//! where they differ from those that stand of the lines before: the stepper goes back to there.
#![tactic(auto)]

mod checking;
mod firing;
pub mod laws;
mod listed;
mod lookup;
mod rows;

pub use checking::{Verdict, verdicts};
pub use listed::is_listed;
pub use lookup::{LineSets, line_sets};
