//! Classes of mutual dependence among numbers, in an order in which each class comes after those on
//! which it depends.
#![tactic(auto)]

mod classing;
mod closing;
mod dependences;
mod giving;
mod graph;
mod laws;
mod lists;
mod rows;
mod schedule;
mod search;
mod slots;

pub use dependences::{Block, Graph};
pub use graph::blocks;
pub use laws::block_laws;
