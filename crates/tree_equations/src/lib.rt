//! The table of gates of a static system, for an observer and a wanted value.
//!
//! The modes of the trees come first, then what the flows are known to be, by rounds over the blocks of flows that
//! depend on each other, then what tells of a conflict, and last the observer.
#![tactic(auto)]

mod assigning;
mod fault;
mod first_rows;
mod index;
mod leaving;
mod modes;
mod rounds;
mod rows;
mod seeing;
mod table;
mod totals;

pub use fault::EqFault;
pub use table::equations;
