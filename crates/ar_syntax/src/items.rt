//! Models and their items.

use crate::members::Unit;
use ar_base::{NameId, Names, Place};

/// What a domain holds.
#[derive(Drop)]
pub enum DomainBody {
    /// Symbols in the declared order, each with its place, at least one.
    Symbols(Vec<(NameId, Place)>),
    /// The whole numbers from the first bound to the second.
    Range(i64, i64),
}

/// A declaration of a domain.
#[derive(Drop)]
pub struct DomainDecl {
    /// Its name.
    pub name: NameId,
    /// The place of its name.
    pub at: Place,
    /// What it holds.
    pub body: DomainBody,
}

/// An item of a model.
#[derive(Drop)]
pub enum Item {
    /// `domain NAME ..`
    Domain(DomainDecl),
    /// `class NAME .. end`
    Class(Unit),
    /// `block NAME .. end`
    Block(Unit),
}

/// A whole model.
#[derive(Drop)]
pub struct Model {
    /// The texts of the names, in the order of their first use.
    pub names: Names,
    /// The items in the order of the text, at least one.
    pub items: Vec<Item>,
    /// The place behind the text.
    pub end: Place,
}
