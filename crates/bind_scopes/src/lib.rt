//! What paths name where they stand in a tree of units: variables, parameters, events and symbols, in the scopes in which
//! expressions may name them, with their kinds and their places in the lists of the tree.
#![tactic(auto)]

mod comparing;
mod index;
mod kinds;
mod members;
mod naming;
mod scopes;
mod sites;

pub use comparing::{is_same_kind, is_same_value};
pub use index::Index;
pub use kinds::kind_of_domain;
pub use naming::{Sort, UnitNames};
pub use scopes::{Named, Scope, Scopes};
pub use sites::{members_of, written};
