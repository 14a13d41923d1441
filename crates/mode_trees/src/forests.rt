//! Trees of modes.

use ar_base::{EventId, VarId, WayId};
use domains::Value;

/// An edge from one mode of a variable to another, by a way of an event.
#[derive(Clone, Copy)]
pub struct Edge {
    /// The mode that it leaves.
    pub from: Value,
    /// The event.
    pub event: EventId,
    /// The way, one of the event.
    pub way: WayId,
    /// The mode that it enters.
    pub to: Value,
}

/// The tree of a mode variable.
#[derive(Drop)]
pub struct ModeTree {
    /// The variable.
    pub variable: VarId,
    /// Its initial mode, the root.
    pub first: Value,
    /// The edges, each before those below the mode that it enters, and those that leave one mode by their events' numbers.
    pub edges: Vec<Edge>,
}

/// The trees of all mode variables.
#[derive(Drop)]
pub struct Forest {
    /// The trees, by the numbers of their variables.
    pub trees: Vec<ModeTree>,
}
