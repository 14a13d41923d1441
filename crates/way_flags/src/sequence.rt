//! A sequence of the ways in which parts come before the ways that name them.
//!
//! Nothing rests on the sequence but how deep the recursion goes that puts the ways in order: ways that are put in it one
//! by one find their parts there already.

use crate::flags::unset;
use crate::is_set;
use ar_base::{Memory, WayId};
use gts_core::{GtsParts, WayBody};
use std::alloc::Global;

// A way whose parts come first, and how many of them were looked at.
#[derive(Clone, Copy)]
struct Open {
    way: WayId,
    next: usize,
}

// The ways as they are visited: those that were met, those whose parts are being visited, and those that are done.
#[derive(Drop)]
struct Visit {
    met: Vec<bool>,
    open: Vec<Open>,
    done: Vec<WayId>,
}

/// The ways, parts first.
pub(crate) fn parts_first(alloc: Global, parts: &GtsParts) -> Result<Vec<WayId>, Memory> {
    let mut visit = Visit {
        met: unset(alloc, parts.ways.len())?,
        open: Vec::new(alloc),
        done: Vec::new(alloc),
    };
    for n in 0..parts.ways.len() {
        if let Ok(n) = u32::try_from(n) {
            visit_from(parts, WayId::new(n), &mut visit)?;
        }
    }
    let Visit {
        met: _,
        open: _,
        done,
    } = visit;
    Ok(done)
}

// Visits a way and the ways below it.
fn visit_from(parts: &GtsParts, root: WayId, visit: &mut Visit) -> Result<(), Memory> {
    meet(visit, root)?;
    for _turn in 0..u64::MAX {
        let Some(top) = visit.open.pop() else {
            return Ok(());
        };
        match next_part(parts, top) {
            Some(part) => {
                let next = top.next.saturating_add(1);
                visit.open.push(Open { way: top.way, next })?;
                meet(visit, part)?;
            }
            None => visit.done.push(top.way)?,
        }
    }
    Ok(())
}

// Opens a way that was not met before.
fn meet(visit: &mut Visit, way: WayId) -> Result<(), Memory> {
    if is_set(&visit.met, way) {
        return Ok(());
    }
    if let Some(met) = visit.met.get_mut(way.n as usize) {
        *met = true;
        visit.open.push(Open { way, next: 0 })?;
    }
    Ok(())
}

// The part of a way that is to be looked at next.
fn next_part(parts: &GtsParts, top: Open) -> Option<WayId> {
    match &parts.ways.get(top.way.n as usize)?.body {
        WayBody::Sync(ways) => {
            let (_, part) = ways.get(top.next)?;
            Some(*part)
        }
        WayBody::Local(_, _) => None,
    }
}
