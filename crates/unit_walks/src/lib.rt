//! The units of a model's main block, depth first, and what each name leads to in each of them.
//!
//! A path of a clone or an alias is walked name by name. What a name in a unit leads to is found
//! once for all walks and kept in a table; what leads to nothing is found anew where it is asked for
//! again. Where a long path leads is kept by the statement in its body and by the unit where the path
//! begins, so that all instances of a class walk a path that begins at the main block once. So the
//! cost is linear in the statements of the units and the names on the paths that are walked, whatever
//! the paths share, and nothing but the depth of units is on the stack.
#![tactic(auto)]

mod forms;
mod growing;
mod indexing;
mod settling;
mod tables;
mod walking;

pub use growing::{Unfolded, units};
pub use settling::{Led, Walks, settle};
