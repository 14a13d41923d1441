//! What stands beside the model of a job: lines of scripts, which become commands, and of cut lists, which become cuts; lists of
//! events by their paths; one of the observers, by its path, with a value of its type.
#![tactic(auto)]

mod commands;
mod cut_lines;
mod cut_lists;
mod cutting;
mod faults;
pub mod laws;
mod lines;
mod paths;
mod reading;
mod script_labels;
mod values;
mod wanting;
mod way_numbers;

pub use commands::{Command, read_script};
pub use cut_lists::read_cuts;
pub use cutting::first_piece;
pub use faults::ScriptFault;
pub use paths::{event_named, names_of};
pub use reading::{ListFault, read_events};
pub use wanting::{Wanted, WantedFault, observer_named, read_wanted};
