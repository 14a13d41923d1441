//! Families of sets of events in short: a unit whose sets of events may be exchanged stands in the place of these sets.
#![tactic(auto)]

mod entries;
mod forms;
mod modules;
mod parts;
mod ranges;
mod shortening;
mod twins;

pub use ranges::{EventSet, Module, Range, Short, ShortSet};
pub use shortening::shorten;
