//! From a flat system to the trees of its modes, or the first rule of the static fragment that it breaks.
//! Where only cuts of at most so many events are asked for, the rule on how many events may have a live edge is not.
//!
//! What the searches over the events, units and values mean for the system stands in laws: functions with empty bodies.
#![tactic(auto)]

mod faults;
mod kept;
mod laws;
mod reaching;
mod recognising;
mod sharing;
mod showing;
mod stages;
mod trees;

pub use faults::{FragmentFault, Spot};
pub use kept::kept_laws;
pub use laws::event_laws;
pub use mode_trees::{Edge, Forest, ModeTree};
pub use reaching::edge_laws;
pub use recognising::{recognise, recognise_up_to};
pub use sharing::edge_sharing_laws;
