//! Unions and products of families of least sets.
//!
//! Of two families the least sets of either, and the least unions of a set of each, also of at most so many members. In each
//! family no set lies within another. They are made in a store of zdd_ops, beside which a memo holds what was made.
#![tactic(auto)]

mod halves;
mod making;
mod memo;

pub use making::{least_up_to, product_least, union_least};
pub use memo::Memo;
