//! Units with their events, and families in short.

use ar_base::{EventId, UnitId};

/// A unit with its events and those of all units within it: the numbers from `from` up to and without `to`.
#[derive(Clone, Copy)]
pub struct Range {
    /// The unit.
    pub unit: UnitId,
    /// The first number.
    pub from: u32,
    /// The number behind the last one.
    pub to: u32,
}

/// A set of events.
#[derive(Drop)]
pub struct EventSet {
    /// The events, ascending.
    pub events: Vec<EventId>,
}

/// A unit with the sets of its events that may stand for each other.
#[derive(Drop)]
pub struct Module {
    /// The unit.
    pub unit: UnitId,
    /// The sets, in the order of listing.
    pub sets: Vec<EventSet>,
}

/// The sets that are made of a set of each of these units and of these events.
#[derive(Drop)]
pub struct ShortSet {
    /// The units, ascending.
    pub units: Vec<UnitId>,
    /// The other events, ascending.
    pub events: Vec<EventId>,
}

/// A family in short.
#[derive(Drop)]
pub struct Short {
    /// The units with sets, by number.
    pub modules: Vec<Module>,
    /// The short forms of the family's sets, each once.
    pub sets: Vec<ShortSet>,
}
