//! The text of the gate table of a system, and that it is the text of the source's table.
#![tactic(auto)]

pub mod laws;
mod names;

pub use names::event_texts;
