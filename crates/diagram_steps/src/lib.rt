//! The steps by which mode diagrams are drawn and their families listed.
//!
//! Trees whose modes are numbered come in the order of their events. Diagrams get their opposite, or are joined to one. The
//! sets of a family get an event that they all have.
#![tactic(auto)]

mod joints;
mod ordering;
mod putting;
mod trees;

pub use joints::{joined, signed};
pub use ordering::in_order;
pub use putting::with_event;
pub use trees::{NumberedEdge, NumberedTree};
