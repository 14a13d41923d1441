//! Expressions over variables of any kind: their kinds, their values, and the values that they
//! yield from facts.
#![tactic(auto)]

mod budget;
mod env;
mod expr;
mod fold;
mod kinds;
mod laws;
mod possible;
mod relations;
mod rows;
mod sets;
mod total;
mod value_set;

pub use budget::Budget;
pub use env::Env;
pub use expr::{Expr, Relation, ValueKind};
pub use kinds::{kind_of, typed};
pub use laws::expression_laws;
pub use possible::{eval_set, eval_set_within, possible_values};
pub use rows::{first_of, row_at};
pub use total::eval_total;
pub use value_set::ValueSet;
