//! Trees and gates numbered anew, so that what is drawn over them asks for the events in a good order.
//!
//! Cuts are drawn over trees and events in the order of their numbers, and this order decides how large drawings are. For one
//! operand, the trees are numbered here by the first use of their events from the operand's gates on, and trees with events
//! on which the operand does not rest are left out. What is drawn then has new numbers, and `names` gives each its event.
#![tactic(auto)]

mod laws;
mod numbering;
mod numbers;
mod ordering;
mod places;
mod renaming;
mod visiting;

pub use laws::least_by_names;
pub use ordering::{Ordered, order_events};
pub use visiting::Visit;
