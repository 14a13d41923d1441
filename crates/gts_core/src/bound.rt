//! What a model's declarations become before their ways are expanded.

use ar_base::{EventId, Place, Text, UnitId, VarId, WayId};
use typed_expr::Expr;

/// An instruction over variables by number.
#[derive(Drop)]
pub enum Act {
    /// Nothing is assigned.
    Skip,
    /// The variable gets the expression's value; the place is that of the target in the model.
    Set(VarId, Expr<VarId>, Place),
    /// The first branch where the test is true, and the second where it is false.
    If(Expr<VarId>, Box<Act>, Box<Act>),
    /// All of them at once.
    All(Vec<Act>),
}

/// An event as it is declared.
#[derive(Drop)]
pub struct DeclaredEvent {
    /// Its path from the main block.
    pub path: Text,
    /// Its unit.
    pub unit: UnitId,
    /// Whether a `hide` clause names it.
    pub hidden: bool,
    /// Its transitions and synchronisations, in member order.
    pub ways: Vec<DeclaredWay>,
}

/// A transition or a synchronisation of an event.
#[derive(Drop)]
pub enum DeclaredWay {
    /// A transition: its guard and its action.
    Local(Expr<VarId>, Act),
    /// A synchronisation: its events, each with its mark, which is true for `!` and false for `?`, and the place of the
    /// event's name.
    Sync(Vec<(bool, EventId)>, Place),
}

/// A line of a list of cuts.
#[derive(Drop)]
pub struct Chain {
    /// The number of the line, from 1.
    pub line: u32,
    /// The ways of its labels, in order.
    pub ways: Vec<WayId>,
}
