//! The trees of modes of a static system, as its cuts are read from them, with the edges of a tree in order.
#![tactic(auto)]

mod forests;
mod trees;

pub use forests::{Edge, Forest, ModeTree};
pub use trees::edges_below;
