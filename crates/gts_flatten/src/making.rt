//! The ways, events and assignments of a flat system.

ghost use Rattle.std.specs.Prelude.{◌≡◌, ◌<◌, ◌^◌, ℕ, List, map, length, IfOk};
ghost use Rattle.std.specs.List.{flat_map};
ghost use Rattle.ar_base.specs.Lists.{Along};
ghost use Rattle.gts_core.specs.Bound.{assigns_of_act, places_of_act, places_in, declared_from, AreAssigns};
ghost use Rattle.sync_expand.specs.Counts.{AreCounts};
ghost use Rattle.sync_expand.specs.Plans.{planned_ways};
ghost use Rattle.sync_expand.specs.Planned.{planned_of};
ghost use Rattle.gts_flatten.specs.Making.{IsTransitionAt, IsMadeOf, IsMadeWay, AreMadeEvents};
ghost use Rattle.gts_flatten.specs.Placing.{AreDeclared, HasTransition, IsPlanDeclared, IsWayRun};

use ar_base::{EventId, Memory, WayId};
use gts_core::{
    Act, Assign, DeclaredEvent, DeclaredWay, Event, Way, WayBody, assignments, copy_expression,
};
use std::alloc::Global;
use sync_expand::{PlanBody, WayPlan};

/// The planned ways, in their order.
pub(crate) fn ways_of(
    alloc: Global,
    events: &[DeclaredEvent],
    plan: &[WayPlan],
) -> Result<Vec<Way>, Memory>
    requires { AreDeclared events.now plan.now }
    ensures { IfOk result (λ v. Along (IsMadeWay events.now) plan.now v.items) }
{
    let mut ways = Vec::new(alloc);
    for planned in plan {
        let body = body_of(alloc, events, planned.event, &planned.body)?;
        ways.push(Way {
            event: planned.event,
            number: planned.number,
            body,
        })?;
    }
    Ok(ways)
}

// The body of the transition at this place of an event.
fn transition(
    alloc: Global,
    events: &[DeclaredEvent],
    event: EventId,
    place: u32,
) -> Result<WayBody, Memory>
    requires { HasTransition events.now event.n place }
    ensures { IfOk result (IsTransitionAt events.now event.n place) }
{
    match &events[event.n as usize].ways[place as usize] {
        DeclaredWay::Local(guard, action) => {
            let guard = copy_expression(alloc, guard)?;
            let action = assignments(alloc, action)?;
            Ok(WayBody::Local(guard, action))
        }
        DeclaredWay::Sync(_, _) => unreachable!(),
    }
}

// The body of a planned way of an event.
fn body_of(
    alloc: Global,
    events: &[DeclaredEvent],
    event: EventId,
    body: &PlanBody,
) -> Result<WayBody, Memory>
    requires { IsPlanDeclared events.now event.n body.now }
    ensures { IfOk result (IsMadeOf events.now event.n body.now) }
{
    match body {
        PlanBody::Local(place) => transition(alloc, events, event, *place),
        PlanBody::Sync(parts) => Ok(WayBody::Sync(Vec::from_slice(alloc, parts)?)),
    }
}

// The numbers of the planned ways of the event from this one on, up to the first of another event.
fn run_of(
    alloc: Global,
    plan: &[WayPlan],
    event: EventId,
    first: usize,
) -> Result<Vec<WayId>, Memory>
    requires { length plan.now < 2 ^ 32 }
    ensures { IfOk result (λ v. IsWayRun plan.now event.n first v.items) }
{
    let mut numbers = Vec::new(alloc);
    for number in first..plan.len() {
        if plan[number].event.n != event.n {
            break;
        }
        numbers.push(WayId::new(number as u32))?;
    }
    Ok(numbers)
}

/// The declared events, each with the numbers of its ways in the plan.
pub(crate) fn events_of(
    alloc: Global,
    declared: &[DeclaredEvent],
    plan: &[WayPlan],
) -> Result<Vec<Event>, Memory>
    requires few { length declared.now < 2 ^ 32 }
    requires short { length plan.now < 2 ^ 32 }
    ensures { (counts : List ℕ) → AreCounts (declared_from 0 declared.now) counts
        → map planned_of plan.now ≡ planned_ways counts (declared_from 0 declared.now)
        → IfOk result (λ v. AreMadeEvents counts declared.now v.items) }
{
    let mut events = Vec::new(alloc);
    let mut first = 0;
    for (number, event) in declared.iter().enumerate() {
        let ways = run_of(alloc, plan, EventId::new(number as u32), first)?;
        first += ways.len();
        let path = event.path.copy(alloc)?;
        events.push(Event {
            path,
            unit: event.unit,
            hidden: event.hidden,
            ways,
        })?;
    }
    Ok(events)
}

/// The assignments of instructions, one after the other.
pub(crate) fn assigns_of(alloc: Global, acts: &[Act]) -> Result<Vec<Assign>, Memory>
    ensures assigns { IfOk result (λ v. AreAssigns (flat_map assigns_of_act acts.now) v.items) }
    ensures places { IfOk result (λ v. places_in v.items ≡ flat_map places_of_act acts.now) }
{
    let mut assigns = Vec::new(alloc);
    for act in acts {
        let mut added = assignments(alloc, act)?;
        assigns.append(&mut added)?;
    }
    Ok(assigns)
}
