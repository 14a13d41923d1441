//! The reading of a text as a model: what source tree it has, and where a text that has none is refused.
#![tactic(auto)]

mod fault;
mod numbering;
mod reading;

pub use fault::ParseFault;
pub use reading::parse;
