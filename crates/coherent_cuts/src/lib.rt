//! The least sets of coherent operands, as products and unions of families of least sets.
//!
//! A gate without negations needs no diagram of all its sets: the least sets of an `or` are the least of both families, those
//! of an `and` the least of the unions of two, and those of an event the events on the path to it. Sets with events that are on
//! no one path are left out once, at the end.
#![tactic(auto)]

mod coherent;
mod cuts;
mod exclusive;
mod gates;
mod paths;

pub use coherent::is_coherent;
pub use cuts::least_cuts;
