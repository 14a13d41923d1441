//! The tree of units of a model's main block, with the lists of what its units declare.
//!
//! The stages are joined here: the units, the limits of what is in them, the walks of their names, the rules on them, and
//! then the variables, parameters, events and observers. The cost is that of the stages.
#![tactic(auto)]

mod domains_of;
mod listing;
mod nodes;
mod outermost;
mod parameter_lists;
mod plain;
mod rules;
mod setting_places;
mod types_of;
mod unfolding;
mod values;
mod variable_lists;

pub use parameter_lists::parameters;
pub use plain::{events, observers};
pub use unfolding::instantiate;
pub use variable_lists::variables;
