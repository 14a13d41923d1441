//! The rule that no event is reached from one of its own synchronisations.

ghost use Rattle.std.specs.Prelude.{◌≡◌, ◌≤◌, Some, IfOk, IfErr, IfNone, IfSome, length};
ghost use Rattle.ar_base.specs.Stages.{Keeps};
ghost use Rattle.ar_base.specs.StagesInside.{IsRefusal, rule_told};
ghost use Rattle.ar_base.specs.declared.numbers.Id.{Id};
ghost use Rattle.ar_base.specs.declared.numbers.EventKind.{EventKind};
ghost use Rattle.sync_expand.specs.Expanding.{AreExpandable, BreaksNumberedWayRule};
ghost use Rattle.sync_expand.specs.Counting.{way_rules};
ghost use Rattle.sync_expand.specs.Links.{IsClimbAmong, IsClimbOf, IsClimbIn, IsClimb, IsFirstLink, IsEarlierLink, Falls};

use crate::numbers::number_at;
use crate::reach::{reach_counts, reached_from};
use crate::search::ranks_of;
use ar_base::{EventId, Place, RuleFault};
use gts_core::{DeclaredEvent, DeclaredWay};
use std::alloc::Global;

/// A part that a synchronisation of an event names, with the place of the synchronisation.
#[derive(Clone, Copy)]
pub(crate) struct Link {
    pub event: EventId,
    pub part: EventId,
    pub at: Place,
}

/// Ranks by which each part has a lesser rank than the event that names it. Refuses where an event
/// is reached from one of its own synchronisations, with the earliest place of one.
///
/// Where the ranks that were found fall from each event to its parts, no event is reached from
/// itself. Elsewhere, where no part has a greater rank, only parts of the event's own rank can lead
/// back to it, and the earliest of these is followed. Ranks that show neither are replaced by the
/// counts of what is reached from each event, which show one of both.
pub(crate) fn falling_ranks(alloc: Global, events: &[DeclaredEvent]) -> Result<Vec<u32>, RuleFault>
    requires { AreExpandable events.now }
    ensures falls { IfOk result (λ ranks. Falls events.now ranks.items) }
    ensures refused { IfErr result
        (λ e. IsRefusal (Keeps way_rules BreaksNumberedWayRule events.now) (rule_told e)) }
{
    let ranks = ranks_of(alloc, events)?;
    let Some(link) = first_climb(events, &ranks, 0) else {
        return Ok(ranks);
    };
    let reached = reached_from(alloc, events, link.part)?;
    if first_climb(events, &ranks, 1).is_none() && reached[link.event.n as usize] {
        return Err(RuleFault::Rule(14, link.at));
    }
    let counts = reach_counts(alloc, events)?;
    match first_climb(events, &counts, 0) {
        Some(link) => Err(RuleFault::Rule(14, link.at)),
        None => Ok(counts),
    }
}

// The earlier of two links, as far as there are any.
fn earlier(found: Option<Link>, other: Option<Link>) -> Option<Link>
    ensures { IsEarlierLink found other result }
{
    match found {
        None => other,
        Some(first) => match other {
            None => Some(first),
            Some(second) => if second.at.is_before(first.at) {
                Some(second)
            } else {
                Some(first)
            },
        },
    }
}

// The earliest link that climbs by so much.
fn first_climb(events: &[DeclaredEvent], ranks: &[u32], gap: u32) -> Option<Link>
    requires { length events.now ≤ 16384 }
    ensures { IsFirstLink (IsClimb events.now ranks.now gap) result }
{
    let mut found = None;
    for (place, declared) in events.iter().enumerate() {
        let event = EventId::new(place as u32);
        found = earlier(found, climb_in(&declared.ways, event, ranks, gap));
    }
    found
}

// The same among the ways of an event.
fn climb_in(ways: &[DeclaredWay], event: EventId, ranks: &[u32], gap: u32) -> Option<Link>
    ensures { IsFirstLink (IsClimbIn ways.now event ranks.now gap) result }
{
    let mut found = None;
    for way in ways {
        found = earlier(found, climb_of(way, event, ranks, gap));
    }
    found
}

// The same of one way.
fn climb_of(way: &DeclaredWay, event: EventId, ranks: &[u32], gap: u32) -> Option<Link>
    ensures { IsFirstLink (IsClimbOf way.now event ranks.now gap) result }
{
    match way {
        DeclaredWay::Sync(parts, at) => {
            let part = climb_among(parts, event, ranks, gap)?;
            let at = *at;
            Some(Link { event, part, at })
        }
        DeclaredWay::Local(_, _) => None,
    }
}

// The first part of a synchronisation that climbs.
fn climb_among(
    parts: &[(bool, EventId)],
    event: EventId,
    ranks: &[u32],
    gap: u32,
) -> Option<EventId>
    ensures none { IfNone result ((part : Id EventKind)
        → IsClimbAmong parts.now event ranks.now gap part → ⊥) }
    ensures some { IfSome result (λ part. IsClimbAmong parts.now event ranks.now gap part) }
{
    for (_, part) in parts {
        let least = u64::from(number_at(ranks, event)) + u64::from(gap);
        if least <= u64::from(number_at(ranks, *part)) {
            return Some(*part);
        }
    }
    None
}
