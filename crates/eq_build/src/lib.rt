//! The gates of expressions: for each value that an expression may have, the operand that tells where it has it.
//!
//! An expression is built from the entries of its operands: each pair, case or operand is a term, a value with
//! operands that are all needed for it. The terms are grouped by their values, and each group becomes an entry, one
//! of its terms and all of the term's operands.
#![tactic(auto)]

mod building;
mod entries;
mod forms;
mod groups;
mod laws;
mod rounds;
mod steps;
mod table_steps;

pub use building::build;
pub use entries::{BuildFault, Entry, MOST_GATES, made, one_of_alls, operand_for};
pub use groups::Groups;
pub use laws::building_laws;
pub use rounds::needs_round;
pub use steps::Step;
pub use table_steps::one_table;
