//! Dropped events, synchronised ways, and units that have transitions.

ghost use Rattle.std.specs.Prelude.{◌≡◌, ◌<◌, ◌^◌, length, IfOk};
ghost use Rattle.gts_core.specs.Sound.{IsSound};
ghost use Rattle.ar_meaning.specs.Found.{IsAnswer};
ghost use Rattle.mode_search.specs.Events.{IsLeastNumber, AreMarks, plain_event_numbers, AreMoving, IsJoint, HasJoint, IsJointAt, IsStateless, StillMoves};

use ar_base::{EventId, Memory, VarId, WayId, mark};
use gts_core::{GtsParts, WayBody};
use std::alloc::Global;

/// For each of so many events whether it is one of these.
pub fn marked(alloc: Global, count: usize, dropped: &[EventId]) -> Result<Vec<bool>, Memory>
    ensures { IfOk result (λ marks. AreMarks count (plain_event_numbers dropped.now) marks.items) }
{
    let mut marks = vec![in alloc; false; count]?;
    for event in dropped {
        mark(&mut marks, event.n);
    }
    Ok(marks)
}

/// The first event that has a synchronised way. Takes no memory.
pub fn first_joint(parts: &GtsParts) -> Option<u32>
    requires { IsSound parts.now }
    ensures { IsLeastNumber (IsJointAt parts.now) result }
{
    for (n, event) in parts.events.iter().enumerate() {
        if has_joint(parts, &event.ways) {
            return Some(n as u32);
        }
    }
    None
}

// Whether one of these ways is synchronised.
fn has_joint(parts: &GtsParts, ways: &[WayId]) -> bool
    ensures { IsAnswer result (HasJoint parts.now ways.now) }
{
    for way in ways {
        if is_joint(parts, *way) {
            return true;
        }
    }
    false
}

// Whether this is a synchronised way.
fn is_joint(parts: &GtsParts, way: WayId) -> bool
    ensures { IsAnswer result (IsJoint parts.now way.n) }
{
    match parts.ways.get(way.n as usize) {
        Some(way) => match &way.body {
            WayBody::Local(_, _) => false,
            WayBody::Sync(_) => true,
        },
        None => false,
    }
}

/// For each unit whether one of its events that are not marked has a way.
pub fn moving_units(alloc: Global, parts: &GtsParts, marks: &[bool]) -> Result<Vec<bool>, Memory>
    requires sound { IsSound parts.now }
    requires marks { length marks.now ≡ length parts.now.events.items }
    ensures { IfOk result (λ moving. AreMoving parts.now marks.now (length parts.now.events.items)
        moving.items) }
{
    let mut moving = vec![in alloc; false; parts.units.len()]?;
    for (n, event) in parts.events.iter().enumerate() {
        let unit = event.unit.n as usize;
        let moves = still_moves(moving[unit], marks[n], &event.ways);
        moving[unit] = moves;
    }
    Ok(moving)
}

// Whether a unit moved before, or an event that is not marked has a way.
fn still_moves(moved: bool, marked: bool, ways: &[WayId]) -> bool
    ensures { IsAnswer result (StillMoves moved marked ways.now) }
{
    moved || (!marked && !ways.is_empty())
}

/// The first unit that moves and has no state variable. Takes no memory.
pub fn first_stateless(moving: &[bool], firsts: &[Option<VarId>]) -> Option<u32>
    requires long { length moving.now ≡ length firsts.now }
    requires short { length moving.now < 2 ^ 32 }
    ensures { IsLeastNumber (IsStateless moving.now firsts.now) result }
{
    for (unit, moves) in moving.iter().enumerate() {
        if *moves && firsts[unit].is_none() {
            return Some(unit as u32);
        }
    }
    None
}
