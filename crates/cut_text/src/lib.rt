//! The text of a listing of cuts, of a conflict, and of a forest: its trees, their edges, and how many events have an edge.
#![tactic(auto)]

mod conflicts;
mod faults;
pub mod forest_laws;
mod forest_printing;
pub mod laws;
mod printing;
mod tables;

pub use faults::PrintFault;
pub use forest_printing::print_forest;
pub use printing::{print_conflict, print_cuts, write_order_end, write_set};
pub use tables::event_ways;
