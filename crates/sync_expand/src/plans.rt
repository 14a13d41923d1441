//! Planned ways.

use ar_base::{EventId, WayId};

/// A way as it is planned. Its number among all ways is its place in the plan.
#[derive(Drop)]
pub struct WayPlan {
    /// The event.
    pub event: EventId,
    /// Its number among the event's ways, from 1.
    pub number: u32,
    /// What it is made of.
    pub body: PlanBody,
}

/// What a planned way is made of.
#[derive(Drop)]
pub enum PlanBody {
    /// A transition: its place among the event's declared transitions and synchronisations, from 0.
    Local(u32),
    /// One way for each part of a synchronisation, by its number among all ways, with the part's
    /// mark, which is true for `!` and false for `?`.
    Sync(Vec<(bool, WayId)>),
}
