//! Written expressions and instructions apart from where they stand: their kinds, the earliest place at which one breaks a
//! rule of names, kinds or targets, and the bound expressions and instructions by numbers that they become.
#![tactic(auto)]

mod acting;
mod checks;
mod kinds;
mod laws;
mod misnaming;
mod mistyping;
mod naming;
mod parts;
mod rules;
mod translating;
mod two_way_assignments;

pub use acting::acted;
pub use checks::{ActionRule, AssertionRule, KindRule, NameRule};
pub use kinds::form_kind;
pub use laws::form_laws;
pub use misnaming::first_misnamed;
pub use mistyping::{differ, first_mistyped};
pub use naming::{Leaf, Leaves, Naming};
pub use parts::{Rule, first_breach};
pub use rules::{
    Targets, misnamed_itself, misplaced_in_action, misplaced_in_assertion, mistyped_itself,
};
pub use translating::translated;
pub use two_way_assignments::both_ways;
