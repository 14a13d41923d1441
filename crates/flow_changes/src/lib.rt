//! What changes of a state change: from what a state determines to what it determines with new values, and the way back.
#![tactic(auto)]

mod changes;
mod checking;
mod closing;
mod codes;
mod cone;
mod following;
mod gathering;
mod known;
mod marked;
mod picking;
mod present;
mod putting;
mod queue;
mod restoring;
mod starting;
mod trying;
mod whole;

pub use changes::{Changes, changes_at};
pub use present::{Present, make_present, propagate_from, restore};
