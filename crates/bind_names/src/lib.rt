//! The bound forms of a tree of units: all that it declares, by numbers.
//!
//! These are its variables, assertions and observers, its events with their transitions and synchronisations, the canonical
//! paths of all of them, and the symbols.
#![tactic(auto)]

mod all_values;
mod assertion_list;
mod binding;
mod breaches;
mod computing;
mod event_rules;
mod expression_rules;
mod gathering;
mod hiding;
mod leaves;
mod listing;
mod lists;
mod member_rules;
mod members;
mod numbered_expressions;
mod numbered_instructions;
mod observer_list;
mod outside_domains;
mod path_bytes;
mod paths;
mod rules;
mod symbols;
mod value_rules;
mod variable_list;
mod ways;
mod written_rules;

pub use assertion_list::assertions;
pub use binding::bind;
pub use listing::events;
pub use observer_list::observers;
pub use paths::{event_paths, prefixes, thing_path, unit_paths};
pub use symbols::symbol_texts;
pub use variable_list::variables;
