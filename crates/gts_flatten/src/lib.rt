//! The flat system of bound forms, whose expressions are counted before it is made.
#![tactic(auto)]

mod acts;
mod copying;
mod fitting;
mod flattening;
mod making;
mod sizes;

pub use fitting::fit_nodes;
pub use flattening::flatten;
