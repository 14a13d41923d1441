//! Which events are reached from an event.

ghost use Rattle.std.specs.Prelude.{◌≡◌, ◌<◌, ◌^◌, false, IfOk, OnOk, length};
ghost use Rattle.ar_base.specs.declared.numbers.Id.{Id};
ghost use Rattle.ar_base.specs.declared.numbers.EventKind.{EventKind};
ghost use Rattle.sync_expand.specs.Expanding.{AreExpandable};
ghost use Rattle.sync_expand.specs.Links.{IsPartOfWays};
ghost use Rattle.sync_expand.specs.Reached.{AreReachCounts, AreReachedFrom, IsAmong, OpensEvents, marked};

use ar_base::{EventId, Memory};
use gts_core::{DeclaredEvent, DeclaredWay};
use std::alloc::Global;

// Marks for the events that were met, and those of them that are ahead: their parts are still to be
// met.
#[derive(Drop)]
struct Walk {
    marks: Vec<bool>,
    ahead: Vec<EventId>,
}

/// For each event whether it is this one or is reached from it.
pub(crate) fn reached_from(
    alloc: Global,
    events: &[DeclaredEvent],
    from: EventId,
) -> Result<Vec<bool>, Memory>
    requires expandable { AreExpandable events.now }
    requires from { from.n < length events.now }
    ensures { IfOk result (λ marks. AreReachedFrom events.now from.n marks.items) }
{
    let marks = vec![in alloc; false; events.len()]?;
    let mut walk = Walk {
        marks,
        ahead: Vec::new(alloc),
    };
    meet(&mut walk, from)?;
    while let Some(event) = walk.ahead.pop() {
        meet_parts(&mut walk, &events[event.n as usize].ways)?;
    }
    let Walk { marks, ahead: _ } = walk;
    Ok(marks)
}

/// For each event how many events are reached from it, itself among them.
pub(crate) fn reach_counts(alloc: Global, events: &[DeclaredEvent]) -> Result<Vec<u32>, Memory>
    requires { AreExpandable events.now }
    ensures { IfOk result (λ counts. AreReachCounts events.now counts.items) }
{
    let mut counts = Vec::new(alloc);
    for place in 0..events.len() {
        let marks = reached_from(alloc, events, EventId::new(place as u32))?;
        counts.push(number_marked(&marks))?;
    }
    Ok(counts)
}

// How many events are marked.
fn number_marked(marks: &[bool]) -> u32
    requires { length marks.now < 2 ^ 32 }
    ensures { result ≡ marked marks.now }
{
    let mut number = 0;
    for mark in marks {
        if *mark {
            number += 1;
        }
    }
    number
}

// Meets the parts of these ways.
fn meet_parts(walk: &mut Walk, ways: &[DeclaredWay]) -> Result<(), Memory>
    requires { (x : Id EventKind) → IsPartOfWays ways.now x → x.n < length walk.old.marks.items }
    ensures { OnOk result (OpensEvents (IsPartOfWays ways.now) walk.old walk.new) }
{
    for way in ways {
        if let DeclaredWay::Sync(parts, _) = way {
            meet_all(walk, parts)?;
        }
    }
    Ok(())
}

fn meet_all(walk: &mut Walk, parts: &[(bool, EventId)]) -> Result<(), Memory>
    requires { (x : Id EventKind) → IsAmong parts.now x → x.n < length walk.old.marks.items }
    ensures { OnOk result (OpensEvents (IsAmong parts.now) walk.old walk.new) }
{
    for (_, event) in parts {
        meet(walk, *event)?;
    }
    Ok(())
}

// Marks and opens an event that was not met before.
fn meet(walk: &mut Walk, event: EventId) -> Result<(), Memory>
    requires { event.n < length walk.old.marks.items }
    ensures { OnOk result (OpensEvents (λ x. x ≡ event) walk.old walk.new) }
{
    let place = event.n as usize;
    if !walk.marks[place] {
        walk.marks[place] = true;
        walk.ahead.push(event)?;
    }
    Ok(())
}
