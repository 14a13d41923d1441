//! What the declarations of a tree of units mean: what expressions name and what values they have,
//! the rules of names, kinds and values, the system that a main block means, and what it is that
//! bound forms are those of a tree.
#![tactic(auto)]

mod bound;
mod laws;
mod rows;

pub use bound::Bound;
pub use laws::{bound_forms, numbers_are_values, one_meaning, one_system};
pub use rows::{one_refusal, worked_rows};
