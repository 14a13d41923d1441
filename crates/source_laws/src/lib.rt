//! Laws of sources: declarations that are alike mean systems that are the same form for form, or are
//! refused in one way.
//!
//! Two readings of a text differ in the addresses of their lists and boxes, and in the room that these
//! have. Each function here has an empty body, or calls other laws, and states a law.
#![tactic(auto)]

pub mod bindings;
pub mod laws;
pub mod meanings;
mod outcomes;
pub mod sources;
pub mod units;

pub use outcomes::some_outcome;
