//! Flat systems: variables, events with their ways, assertions and observers by number; what they mean, and their text; and
//! what a value of a variable may be, whatever the state.
#![tactic(auto)]

mod assigning;
mod bound;
mod copies;
mod expressions;
mod gts;
pub mod laws;
mod names;
mod pieces;
mod print;
mod readings;
mod rows;
mod system;

pub use assigning::assignments;
pub use bound::{Act, Chain, DeclaredEvent, DeclaredWay};
pub use copies::{copy_domain, copy_expression};
pub use gts::Gts;
pub use names::{add_named, add_tests};
pub use pieces::{event_path, variable_path, write_value};
pub use readings::{Assigned, are_met, is_met, value_at, value_in};
pub use rows::{Domains, domains_of};
pub use system::{Assign, Event, GtsParts, Observer, Valuation, Variable, Way, WayBody};
