//! Flat systems by their parts.

use ar_base::{EventId, Place, Text, UnitId, VarId, WayId};
use domains::{Domain, Value};
use typed_expr::{Expr, ValueKind};

/// A variable: a state variable or a flow.
#[derive(Drop)]
pub struct Variable {
    /// Its path from the main block.
    pub path: Text,
    /// Its unit.
    pub unit: UnitId,
    /// The values that it may have.
    pub domain: Domain,
    /// Whether it is a state variable; else it is a flow.
    pub is_state: bool,
    /// The value of its `init` where it is a state variable, and of its `reset` where it is a flow.
    pub value: Value,
}

/// An event.
#[derive(Drop)]
pub struct Event {
    /// Its path from the main block.
    pub path: Text,
    /// Its unit.
    pub unit: UnitId,
    /// Whether a `hide` clause names it.
    pub hidden: bool,
    /// Its ways, in order.
    pub ways: Vec<WayId>,
}

/// A way of an event.
#[derive(Drop)]
pub struct Way {
    /// The event.
    pub event: EventId,
    /// Its number among the event's ways, from 1.
    pub number: u32,
    /// What it does.
    pub body: WayBody,
}

/// What a way does.
#[derive(Drop)]
pub enum WayBody {
    /// A transition: its guard, and the assignments of its action.
    Local(Expr<VarId>, Vec<Assign>),
    /// A synchronisation: one way for each part, with the part's mark, which is true for `!` and false for `?`.
    Sync(Vec<(bool, WayId)>),
}

/// An assignment.
#[derive(Drop)]
pub struct Assign {
    /// The variable that it gives a value.
    pub target: VarId,
    /// The conditions round it from the outermost inward, each with the truth value that it must have.
    pub when: Vec<(Expr<VarId>, bool)>,
    /// The expression whose value the target gets.
    pub value: Expr<VarId>,
    /// Where it stands in the model.
    pub at: Place,
}

/// An observer.
#[derive(Drop)]
pub struct Observer {
    /// Its path from the main block.
    pub path: Text,
    /// The kind of its value.
    pub kind: ValueKind,
    /// The expression whose value it has.
    pub value: Expr<VarId>,
}

/// The parts of a flat system. Each number of a thing is its place, from 0, in the list of its kind.
#[derive(Drop)]
pub struct GtsParts {
    /// The names of the symbols.
    pub symbols: Vec<Text>,
    /// The paths of the units from the main block.
    pub units: Vec<Text>,
    /// The state variables and the flows together.
    pub variables: Vec<Variable>,
    /// The events.
    pub events: Vec<Event>,
    /// The ways of all events.
    pub ways: Vec<Way>,
    /// The assignments of the assertions.
    pub assigns: Vec<Assign>,
    /// The observers.
    pub observers: Vec<Observer>,
}

/// A value for each variable, in their order.
#[derive(Drop)]
pub struct Valuation {
    /// The values.
    pub values: Vec<Value>,
}
