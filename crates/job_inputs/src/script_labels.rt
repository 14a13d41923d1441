//! The ways that the labels of a script name.

ghost use Rattle.std.specs.Prelude.{◌≡◌, ◌+◌, ◌<◌, ℕ, List, length, IfOk, MatchOption};
ghost use Rattle.gts_core.specs.Sound.{IsSound};
ghost use Rattle.gts_flatten.specs.Elaborating.{Elaborated};
ghost use Rattle.job_inputs.specs.Flat.{IsOfTree};
ghost use Rattle.job_inputs.specs.Labels.{NamesVisible};
ghost use Rattle.job_inputs.specs.Reads.{AnswersLabel, IsWayCount, IsNumberedWay, IsNoWayOf};

use crate::faults::ScriptFault;
use crate::paths::visible_at;
use crate::way_numbers::{marked, way_of};
use ar_base::{EventId, WayId};
use gts_core::{Gts, GtsParts};
use hierarchy::Tree;
use std::alloc::Global;

/// The way that the label of a line names: the only way of the event that it names, or the way of
/// its number.
pub(crate) fn way_named(
    alloc: Global,
    tree: &Tree,
    gts: &Gts,
    label: &[u8],
    line: u32,
) -> Result<WayId, ScriptFault>
    requires { (x : Elaborated) × IsOfTree x tree.now gts.now }
    ensures { (x : Elaborated) → IsOfTree x tree.now gts.now
        → AnswersLabel x gts.now label.now line result }
{
    match visible_at(alloc, tree, gts, label)? {
        Some(event) => match ways_of(gts.parts(), event) {
            Counted::One(way) => Ok(way),
            Counted::Many => Err(ScriptFault::Which(line)),
            Counted::None => way_numbered(alloc, tree, gts, label, line),
        },
        None => way_numbered(alloc, tree, gts, label, line),
    }
}

// How many ways an event has.
enum Counted {
    // No way.
    None,
    // This way alone.
    One(WayId),
    // Two ways or more.
    Many,
}

// How many ways an event has.
fn ways_of(parts: &GtsParts, event: EventId) -> Counted
    ensures { IsWayCount parts.now event result }
{
    match parts.events.get(event.n as usize) {
        Some(found) => match found.ways.as_slice() {
            [] => Counted::None,
            [way] => Counted::One(*way),
            _ => Counted::Many,
        },
        None => Counted::None,
    }
}

// The way of the number behind the path, where the label is no path of an event with ways.
fn way_numbered(
    alloc: Global,
    tree: &Tree,
    gts: &Gts,
    label: &[u8],
    line: u32,
) -> Result<WayId, ScriptFault>
    requires { (x : Elaborated) × IsOfTree x tree.now gts.now }
    ensures { (x : Elaborated) → IsOfTree x tree.now gts.now
        → ((e ways : ℕ) → NamesVisible x label.now e ways → ways ≡ 0)
        → AnswersLabel x gts.now label.now line result }
{
    let Some((path, digits)) = marked(label) else {
        return Err(ScriptFault::Unknown(line));
    };
    let Some(event) = visible_at(alloc, tree, gts, path)? else {
        return Err(ScriptFault::Unknown(line));
    };
    match way_at(gts.parts(), event, digits) {
        Some(way) => Ok(way),
        None => Err(ScriptFault::Unknown(line)),
    }
}

// The way of this number, from 1, of an event.
fn way_at(parts: &GtsParts, event: EventId, digits: &[u8]) -> Option<WayId>
    ensures { MatchOption result (IsNoWayOf parts.now event digits.now)
        (λ way. IsNumberedWay parts.now event digits.now way) }
{
    match parts.events.get(event.n as usize) {
        Some(found) => way_of(&found.ways, digits),
        None => None,
    }
}
