//! Families of the firable sets at which a gate is true.
#![tactic(auto)]

mod answer;
mod by_modes;
mod by_use;
mod draw;
mod firable;
mod from_forest;
mod gates;
mod listed;
mod modes;
mod paths;
mod states;
mod walk;
mod walked;

pub use answer::{Drawn, Family};
pub use from_forest::{diagrams, diagrams_up_to};
