//! The tree of units of a model, and what paths name in it.
#![tactic(auto)]

pub mod laws;
mod lookups;
mod outline;
mod tree;

pub use ar_syntax::PathStart as First;
pub use lookups::{event_at, observer_at, owner_and_name, par_at, unit_at, var_at};
pub use outline::Outline;
pub use tree::{Attribute, MemNode, ParNode, Source, Tree, UnitNode, VarNode};
