//! Ranks of events, by which those that lead back to themselves are told.
//!
//! One search through the parts of each event, which opens each event once and holds the events that
//! are open in a list. Events that are reached from one another get one rank; any other event has a
//! greater rank than its parts. Nothing is proved of the ranks: who uses them tests them, and goes
//! another way where the test fails.

use crate::numbers::number_at;
use ar_base::{EventId, Memory};
use gts_core::{DeclaredEvent, DeclaredWay};
use std::alloc::Global;

// An event whose parts are being looked at, with the way and the part that come next.
#[derive(Clone, Copy)]
struct Open {
    event: EventId,
    way: usize,
    part: usize,
}

// When each event was met, counted from 1; the earliest event without a rank that was found to be
// reached from it; the events that are open; those that were met and have no rank yet; how many were
// met and how many ranks were given; and the rank of each event.
#[derive(Drop)]
struct Search {
    met: Vec<u32>,
    earliest: Vec<u32>,
    open: Vec<Open>,
    waiting: Vec<EventId>,
    count: u32,
    rank: u32,
    ranks: Vec<u32>,
}

/// The ranks of events.
pub(crate) fn ranks_of(alloc: Global, events: &[DeclaredEvent]) -> Result<Vec<u32>, Memory> {
    let mut search = Search {
        met: vec![in alloc; 0; events.len()]?,
        earliest: vec![in alloc; 0; events.len()]?,
        open: Vec::new(alloc),
        waiting: Vec::new(alloc),
        count: 0,
        rank: 0,
        ranks: vec![in alloc; 0; events.len()]?,
    };
    for n in 0..events.len() {
        if let Ok(n) = u32::try_from(n) {
            search_from(events, EventId::new(n), &mut search)?;
        }
    }
    let Search {
        met: _,
        earliest: _,
        open: _,
        waiting: _,
        count: _,
        rank: _,
        ranks,
    } = search;
    Ok(ranks)
}

fn put(list: &mut [u32], event: EventId, value: u32) {
    if let Some(entry) = list.get_mut(event.n as usize) {
        *entry = value;
    }
}

// Goes through an event and all that are reached from it and were not met before.
fn search_from(events: &[DeclaredEvent], root: EventId, search: &mut Search) -> Result<(), Memory> {
    meet(search, root)?;
    for _turn in 0..u64::MAX {
        let Some(top) = search.open.pop() else {
            return Ok(());
        };
        let Some((part, next)) = next_part(events, top) else {
            leave(search, top.event);
            continue;
        };
        search.open.push(next)?;
        let met = number_at(&search.met, part);
        if met == 0 {
            meet(search, part)?;
        } else if number_at(&search.ranks, part) == 0 {
            let earliest = number_at(&search.earliest, top.event).min(met);
            put(&mut search.earliest, top.event, earliest);
        }
    }
    Ok(())
}

// The part that comes next, and what comes behind it.
fn next_part(events: &[DeclaredEvent], open: Open) -> Option<(EventId, Open)> {
    let ways = events.get(open.event.n as usize)?.ways.get(open.way..)?;
    let mut next = open;
    for way in ways {
        if let DeclaredWay::Sync(parts, _) = way {
            if let Some((_, event)) = parts.get(next.part) {
                next.part = next.part.saturating_add(1);
                return Some((*event, next));
            }
        }
        next.way = next.way.saturating_add(1);
        next.part = 0;
    }
    None
}

// Opens an event that was not met before.
fn meet(search: &mut Search, event: EventId) -> Result<(), Memory> {
    if event.n as usize >= search.met.len() || number_at(&search.met, event) > 0 {
        return Ok(());
    }
    search.count = search.count.saturating_add(1);
    put(&mut search.met, event, search.count);
    put(&mut search.earliest, event, search.count);
    search.waiting.push(event)?;
    search.open.push(Open {
        event,
        way: 0,
        part: 0,
    })?;
    Ok(())
}

// Leaves an event whose parts were all looked at.
fn leave(search: &mut Search, event: EventId) {
    let earliest = number_at(&search.earliest, event);
    if earliest == number_at(&search.met, event) {
        // the event gets the next rank, and so do all that were met behind it and have none
        search.rank = search.rank.saturating_add(1);
        while let Some(last) = search.waiting.pop() {
            put(&mut search.ranks, last, search.rank);
            if last.n == event.n {
                break;
            }
        }
    } else if let Some(above) = search.open.last().copied() {
        let least = number_at(&search.earliest, above.event).min(earliest);
        put(&mut search.earliest, above.event, least);
    }
}
