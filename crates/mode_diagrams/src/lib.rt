//! Operands of a table as mode diagrams, and the family of the sets of events at whose modes a diagram is true.
//!
//! A tree stands here with its modes by number: the first is 0, and the edge at place n enters mode n + 1. A diagram asks at
//! which modes the trees are, so that an operand over events of few trees is small, however many trees there are. The family
//! is made tree by tree in a store of its own, where families on the way may stand that are no part of it, and then its own
//! nodes alone are copied.
#![tactic(auto)]

mod copies;
mod costs;
mod drawing;
mod events;
mod firable_sets;
mod gates;
mod held;
mod listing;
mod numbering;
mod paths;
mod undrawn;

pub use copies::copied;
pub use costs::diagrams_up_to;
pub use drawing::draw;
pub use firable_sets::firable_by_modes;
pub use listing::{Listed, list_sets};
pub use numbering::numbered;
pub use undrawn::Undrawn;
