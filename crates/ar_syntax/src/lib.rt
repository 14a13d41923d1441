//! The source trees of a model, as the grammar derives them.
//!
//! A tree holds what a text says and where it says it. Brackets leave no trace, and a chain with one operand
//! is that operand. Names are numbers of the model's own table of names.
#![tactic(auto)]

mod expressions;
mod instructions;
mod items;
mod members;
mod paths;

pub use expressions::{RawExpr, RawForm, RawRelation};
pub use instructions::Instr;
pub use items::{DomainBody, DomainDecl, Item, Model};
pub use members::{Member, Part, Setting, TypeForm, TypeName, Unit, Word};
pub use paths::{Path, PathStart};
