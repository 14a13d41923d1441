//! Families whose events are places of a list of names, written over the names.
//!
//! Where events were numbered anew for drawing, the family that was drawn goes back to their own numbers here.
#![tactic(auto)]

mod naming;
mod putting;
mod union;

pub use naming::named_family;
