//! Whether a set is listed.

ghost use Rattle.std.specs.Prelude.{◌<◌, length};
ghost use Rattle.ar_base.specs.Lists.{IsOneOf};
ghost use Rattle.ar_base.specs.Sets.{Within};
ghost use Rattle.ar_meaning.specs.Found.{IsAnswer};
ghost use Rattle.job_inputs.specs.Chains.{chain_labels, HaveKnownWays};
ghost use Rattle.job_inputs.specs.CutReads.{AreKnownWays};
ghost use Rattle.cut_check.specs.Flat.{chain_lines, flat_event_numbers};
ghost use Rattle.cut_check.specs.Verdicts.{events_of, IsListed};

use ar_base::{EventId, WayId};
use gts_core::{Chain, Gts, GtsParts};

/// Whether the cut's events are exactly those of one of the lines. Takes no memory.
pub fn is_listed(gts: &Gts, chains: &[Chain], cut: &[EventId]) -> bool
    requires { HaveKnownWays gts.now chains.now }
    ensures { IsAnswer result (IsListed (chain_lines gts.now chains.now) (flat_event_numbers cut.now)) }
{
    let parts = gts.parts();
    for chain in chains {
        let ways: &[WayId] = &chain.ways;
        if are_among(parts, ways, cut) && has_all(parts, ways, cut) {
            return true;
        }
    }
    false
}

// Whether each event of a line is one of these.
fn are_among(parts: &GtsParts, ways: &[WayId], cut: &[EventId]) -> bool
    requires { AreKnownWays parts.now ways.now }
    ensures { IsAnswer result (Within (events_of (chain_labels parts.now ways.now))
        (flat_event_numbers cut.now)) }
{
    for way in ways {
        if !is_among(cut, parts.ways[way.n as usize].event.n) {
            return false;
        }
    }
    true
}

// Whether each of these events is that of one of a line's labels.
fn has_all(parts: &GtsParts, ways: &[WayId], cut: &[EventId]) -> bool
    requires { AreKnownWays parts.now ways.now }
    ensures { IsAnswer result (Within (flat_event_numbers cut.now)
        (events_of (chain_labels parts.now ways.now))) }
{
    for event in cut {
        if !has_event(parts, ways, event.n) {
            return false;
        }
    }
    true
}

// Whether the event is one of these.
fn is_among(cut: &[EventId], event: u32) -> bool
    ensures { IsAnswer result (IsOneOf (flat_event_numbers cut.now) event) }
{
    for other in cut {
        if other.n == event {
            return true;
        }
    }
    false
}

// Whether the event is that of one of a line's labels.
fn has_event(parts: &GtsParts, ways: &[WayId], event: u32) -> bool
    requires { AreKnownWays parts.now ways.now }
    ensures { IsAnswer result (IsOneOf (events_of (chain_labels parts.now ways.now)) event) }
{
    for way in ways {
        if parts.ways[way.n as usize].event.n == event {
            return true;
        }
    }
    false
}
