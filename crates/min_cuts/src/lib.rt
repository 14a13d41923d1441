//! The sets of a family of cuts: how many there are, and the sets one after the other, each in firing order.
#![tactic(auto)]

mod lister;
mod orders;
mod sizes;
mod steps;

pub use lister::Lister;
pub use sizes::{Counted, counts};
