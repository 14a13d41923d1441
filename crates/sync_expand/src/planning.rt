//! The plan of the ways of all events.

ghost use Rattle.std.specs.Prelude.{◌≡◌, ◌+◌, ◌*◌, ◌<◌, ◌≤◌, ◌^◌, ℕ, List, [], ◌∷◌, map, sum, length, OnOk, IfOk, slice_index};
ghost use Rattle.ar_base.specs.Lists.{Stands};
ghost use Rattle.ar_meaning.specs.Numbered.{Joins};
ghost use Rattle.gts_core.specs.Bound.{declared_from, event_part_of, member_of};
ghost use Rattle.gts_core.specs.View.{part_of};
ghost use Rattle.gts_core.specs.declared.bound.DeclaredEvent.{DeclaredEvent};
ghost use Rattle.sync_expand.specs.Counts.{AreFew, AreFirsts, choice_count as choices_of, member_count, way_count};
ghost use Rattle.sync_expand.specs.Planning.{AddsPlannedWays, HasRoomForWays, IsNumberingKept};
ghost use Rattle.sync_expand.specs.Plans.{bodies_by, choices_by, first_of, planned_ways};
ghost use Rattle.sync_expand.specs.Planned.{planned_body, planned_of};

use crate::counting::choice_count;
use crate::numbers::number_at;
use crate::plans::{PlanBody, WayPlan};
use ar_base::{EventId, Memory, WayId};
use gts_core::{DeclaredEvent, DeclaredWay};
use std::alloc::Global;

/// The number of ways of each event, and the number of its first way among all ways.
#[derive(Drop)]
pub(crate) struct Numbering {
    counts: Vec<u32>,
    firsts: Vec<u32>,
}

impl Numbering {
    /// The numbering where the events have so many ways.
    pub(crate) fn new(alloc: Global, counts: Vec<u32>) -> Result<Numbering, Memory>
        requires { sum counts.items < 2 ^ 32 }
        ensures counts { IfOk result (λ n. n.counts.items ≡ counts.items) }
        ensures numbered { IfOk result IsNumberingKept }
    {
        let firsts = firsts_of(alloc, &counts)?;
        Ok(Numbering { counts, firsts })
    }

    // The way of an event at this place, from 0.
    fn way(&self, event: EventId, place: u32) -> WayId
        requires numbered { IsNumberingKept self.now }
        requires place { place < slice_index self.now.counts.items event.n }
        ensures { result.n ≡ first_of self.now.counts.items event.n + place }
    {
        WayId::new(number_at(&self.firsts, event) + place)
    }
}

/// The ways of all events, event by event.
pub(crate) fn plan(
    alloc: Global,
    events: &[DeclaredEvent],
    numbering: &Numbering,
) -> Result<Vec<WayPlan>, Memory>
    requires few { length events.now ≤ 16384 }
    requires short { (n : ℕ) (d : DeclaredEvent) → Stands events.now n d
        → length d.ways.items < 2 ^ 32 }
    requires numbered { IsNumberingKept numbering.now }
    requires within { AreFew numbering.now.counts.items (declared_from 0 events.now) }
    ensures { IfOk result (λ plan. map planned_of plan.items
        ≡ planned_ways numbering.now.counts.items (declared_from 0 events.now)) }
{
    let mut plan = Vec::new(alloc);
    for (place, declared) in events.iter().enumerate() {
        let event = EventId::new(place as u32);
        plan_event(alloc, event, &declared.ways, numbering, &mut plan)?;
    }
    Ok(plan)
}

// The number of the first way of each event, where the events have so many ways.
fn firsts_of(alloc: Global, counts: &[u32]) -> Result<Vec<u32>, Memory>
    requires { sum counts.now < 2 ^ 32 }
    ensures { IfOk result (λ firsts. AreFirsts counts.now firsts.items) }
{
    let mut firsts = Vec::new(alloc);
    let mut next: u32 = 0;
    for count in counts {
        firsts.push(next)?;
        next += *count;
    }
    Ok(firsts)
}

// Adds the ways of an event.
fn plan_event(
    alloc: Global,
    event: EventId,
    ways: &[DeclaredWay],
    numbering: &Numbering,
    plan: &mut Vec<WayPlan>,
) -> Result<(), Memory>
    requires short { length ways.now < 2 ^ 32 }
    requires numbered { IsNumberingKept numbering.now }
    requires within { way_count numbering.now.counts.items (map member_of ways.now) ≤ 256 }
    ensures { OnOk result (AddsPlannedWays event.n (length plan.old.items)
        (bodies_by (λ k l. k) numbering.now.counts.items 0 (map member_of ways.now))
        plan.old.items plan.new.items) }
{
    let first = plan.len();
    for (place, way) in ways.iter().enumerate() {
        plan_way(alloc, event, first, place as u32, way, numbering, plan)?;
    }
    Ok(())
}

// Adds the ways that a transition or a synchronisation at this place gives.
fn plan_way(
    alloc: Global,
    event: EventId,
    first: usize,
    place: u32,
    way: &DeclaredWay,
    numbering: &Numbering,
    plan: &mut Vec<WayPlan>,
) -> Result<(), Memory>
    requires numbered { IsNumberingKept numbering.now }
    requires room { HasRoomForWays first (member_count numbering.now.counts.items (member_of way.now))
        plan.old.items }
    ensures { OnOk result (AddsPlannedWays event.n first
        (bodies_by (λ k l. k) numbering.now.counts.items place (member_of way.now ∷ []))
        plan.old.items plan.new.items) }
{
    match way {
        DeclaredWay::Local(_, _) => push(plan, event, first, PlanBody::Local(place)),
        DeclaredWay::Sync(parts, _) => plan_choices(alloc, event, first, parts, numbering, plan),
    }
}

// Adds a way for each choice of one way for each part.
fn plan_choices(
    alloc: Global,
    event: EventId,
    first: usize,
    parts: &[(bool, EventId)],
    numbering: &Numbering,
    plan: &mut Vec<WayPlan>,
) -> Result<(), Memory>
    requires numbered { IsNumberingKept numbering.now }
    requires room { HasRoomForWays first
        (choices_of numbering.now.counts.items (map event_part_of parts.now)) plan.old.items }
    ensures { OnOk result (AddsPlannedWays event.n first
        (map Joins (choices_by numbering.now.counts.items (map event_part_of parts.now)))
        plan.old.items plan.new.items) }
{
    let total = choice_count(parts, &numbering.counts);
    for place in 0..total {
        let chosen = choice(alloc, parts, numbering, total, place)?;
        push(plan, event, first, PlanBody::Sync(chosen))?;
    }
    Ok(())
}

// The choice at a place in lexicographic order, where there are so many.
//
// The first part's way changes slowest: it has one place for each choice of the parts after it.
fn choice(
    alloc: Global,
    parts: &[(bool, EventId)],
    numbering: &Numbering,
    total: u32,
    place: u32,
) -> Result<Vec<(bool, WayId)>, Memory>
    requires numbered { IsNumberingKept numbering.now }
    requires total { total ≡ choices_of numbering.now.counts.items (map event_part_of parts.now) }
    requires place { place < total }
    ensures { IfOk result (λ chosen. Stands
        (choices_by numbering.now.counts.items (map event_part_of parts.now)) place
        (map part_of chosen.items)) }
{
    let mut chosen = Vec::new(alloc);
    let mut span = total;
    let mut left = place;
    for (must, event) in parts {
        let count = number_at(&numbering.counts, *event);
        let next = span / count;
        let way = numbering.way(*event, left / next);
        chosen.push((*must, way))?;
        span = next;
        left %= next;
    }
    Ok(chosen)
}

// Adds a way of the event whose first way has this place in the plan.
fn push(plan: &mut Vec<WayPlan>, event: EventId, first: usize, body: PlanBody) -> Result<(), Memory>
    requires { HasRoomForWays first 1 plan.old.items }
    ensures { OnOk result
        (AddsPlannedWays event.n first (planned_body body ∷ []) plan.old.items plan.new.items) }
{
    let number = (plan.len() - first) as u32 + 1;
    plan.push(WayPlan {
        event,
        number,
        body,
    })?;
    Ok(())
}
