//! The ways of the events that are not dropped, with their mode variables.

ghost use Rattle.std.specs.Prelude.{◌≡◌, ◌++◌, ◌<◌, length, IfOk, MatchOption};
ghost use Rattle.ar_base.specs.Lists.{Stands};
ghost use Rattle.ar_meaning.specs.FoundInside.{IsFirstOrNone};
ghost use Rattle.ar_firing.specs.Fragment.{IsStateOf};
ghost use Rattle.mode_search.specs.Modes.{plain_number};
ghost use Rattle.gts_core.specs.View.{net_of};
ghost use Rattle.gts_core.specs.Sound.{IsSound};
ghost use Rattle.mode_search.specs.Events.{IsLeastNumber, AreFirstStates};
ghost use Rattle.mode_search.specs.Kept.{IsKeptOf, IsNoKept, AreKeptWaysBefore, AddsKeptWays, OtherInGuard, OtherInAction, least_unless_alone};

use crate::{WayMode, way_mode};
use ar_base::{EventId, Memory, VarId, WayId};
use gts_core::{Event, GtsParts, WayBody};
use std::alloc::Global;

/// A way of an event that is not dropped.
#[derive(Clone, Copy)]
pub struct KeptWay {
    /// The event.
    pub event: EventId,
    /// The way.
    pub way: WayId,
    /// Whether the event is visible.
    pub visible: bool,
    /// Its mode variable, and what it names beside it.
    pub mode: WayMode,
}

/// The ways of the events that are not marked and whose units have a state variable, by event and then by their order in the
/// event. Synchronised ways are left out. The error is want of memory.
pub fn kept_ways(
    alloc: Global,
    parts: &GtsParts,
    marks: &[bool],
    firsts: &[Option<VarId>],
) -> Result<Vec<KeptWay>, Memory>
    requires sound { IsSound parts.now }
    requires marks { length marks.now ≡ length parts.now.events.items }
    requires firsts { AreFirstStates parts.now (length parts.now.variables.items) firsts.now }
    ensures { IfOk result (λ kept. AreKeptWaysBefore parts.now marks.now (length parts.now.events.items) 0
        kept.items) }
{
    let mut kept = Vec::new(alloc);
    for (n, event) in parts.events.iter().enumerate() {
        if !marks[n] {
            let first = firsts[event.unit.n as usize];
            add_event(
                alloc,
                parts,
                first,
                EventId::new(n as u32),
                event,
                &mut kept,
            )?;
        }
    }
    Ok(kept)
}

// Adds the ways of an event.
fn add_event(
    alloc: Global,
    parts: &GtsParts,
    first: Option<VarId>,
    id: EventId,
    event: &Event,
    kept: &mut Vec<KeptWay>,
) -> Result<(), Memory>
    requires sound { IsSound parts.now }
    requires event { Stands parts.now.events.items id.n event.now }
    requires first { IsFirstOrNone (net_of parts.now).variables (IsStateOf event.now.unit.n)
        (plain_number first) }
    ensures { IfOk result (λ _. AddsKeptWays parts.now id event.now (length event.now.ways.items)
        kept.old.items kept.new.items) }
{
    for way in &event.ways {
        let more = kept_way(alloc, parts, first, id, event, *way)?;
        if let Some(kept_way) = more {
            kept.push(kept_way)?;
        }
    }
    Ok(())
}

// A way of an event, where it is a transition and the unit has a state variable.
fn kept_way(
    alloc: Global,
    parts: &GtsParts,
    first: Option<VarId>,
    id: EventId,
    event: &Event,
    way: WayId,
) -> Result<Option<KeptWay>, Memory>
    requires inside { way.n < length parts.now.ways.items }
    requires first { IsFirstOrNone (net_of parts.now).variables (IsStateOf event.now.unit.n)
        (plain_number first) }
    ensures { IfOk result (λ found. MatchOption found (IsNoKept parts.now event.now way.n)
        (IsKeptOf parts.now id event.now way)) }
{
    match &parts.ways[way.n as usize].body {
        WayBody::Local(guard, action) => {
            let Some(mode) = way_mode(alloc, parts, event.unit, first, guard, action)? else {
                return Ok(None);
            };
            Ok(Some(KeptWay {
                event: id,
                way,
                visible: !event.hidden,
                mode,
            }))
        }
        WayBody::Sync(_) => Ok(None),
    }
}

/// The least mode variable of these ways that has a way whose guard names another variable. Takes no memory.
pub fn least_guard(kept: &[KeptWay]) -> Option<u32>
    ensures { IsLeastNumber (OtherInGuard kept.now) result }
{
    let mut least = None;
    for way in kept {
        least = least_with(least, way.mode.guard_alone, way.mode.variable.n);
    }
    least
}

/// The least mode variable of these ways that has a way whose action names another variable. Takes no memory.
pub fn least_action(kept: &[KeptWay]) -> Option<u32>
    ensures { IsLeastNumber (OtherInAction kept.now) result }
{
    let mut least = None;
    for way in kept {
        least = least_with(least, way.mode.action_alone, way.mode.variable.n);
    }
    least
}

// The lesser of what was found and this number, unless it stands alone.
fn least_with(least: Option<u32>, alone: bool, number: u32) -> Option<u32>
    ensures { result ≡ least_unless_alone least alone number }
{
    if alone {
        return least;
    }
    match least {
        Some(n) => Some(if number < n { number } else { n }),
        None => Some(number),
    }
}
