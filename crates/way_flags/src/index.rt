//! Which ways have to be looked at again where a variable or the flag of a way changed.

ghost use Rattle.std.specs.Prelude.{◌≡◌, ◌<◌, ◌+◌, ◌^◌, length, IfOk};
ghost use Rattle.gts_core.specs.Sound.{IsSound};
ghost use Rattle.way_flags.specs.Ways.{IsWayOrder};
ghost use Rattle.way_flags.specs.Index.{IsWayIndex, AreGuards, AreAbove, AddsParts, ArePlacedUpTo};

use crate::order::way_order;
use ar_base::{IndexedPairs, Memory, WayId, index_pairs};
use flow_propagate::add_named_pairs;
use gts_core::{GtsParts, WayBody};
use std::alloc::Global;

/// The ways of a system in an order, and which of them have to be looked at again where something changed.
#[derive(Drop)]
pub struct WayIndex {
    /// All ways, each after its parts.
    pub order: Vec<WayId>,
    /// The place of each way in the order.
    pub places: Vec<usize>,
    /// The pairs of a variable and a way whose guard names it.
    pub guards: IndexedPairs,
    /// The pairs of a way and a way that has it as a part.
    pub above: IndexedPairs,
}

/// The index of a system's ways. The error is want of memory.
pub fn way_index(alloc: Global, parts: &GtsParts) -> Result<WayIndex, Memory>
    requires { IsSound parts.now }
    ensures { IfOk result (λ index. IsWayIndex parts.now index) }
{
    let order = way_order(alloc, parts)?;
    let places = places_in(alloc, &order, parts.ways.len())?;
    let named = guards(alloc, parts)?;
    let guards = index_pairs(alloc, named)?;
    let having = ways_above(alloc, parts)?;
    let above = index_pairs(alloc, having)?;
    Ok(WayIndex {
        order,
        places,
        guards,
        above,
    })
}

// The place of each way in the order.
fn places_in(alloc: Global, order: &[WayId], count: usize) -> Result<Vec<usize>, Memory>
    ensures long { IfOk result (λ places. length places.items ≡ count) }
    ensures placed { IfOk result (λ places.
        ArePlacedUpTo order.now (length order.now) places.items) }
{
    let mut places = vec![in alloc; 0usize; count]?;
    for (place, way) in order.iter().enumerate() {
        let n = way.n as usize;
        if n < places.len() {
            places[n] = place;
        }
    }
    Ok(places)
}

// The pairs of a variable and a way whose guard names it.
fn guards(alloc: Global, parts: &GtsParts) -> Result<Vec<(u32, u32)>, Memory>
    requires { IsSound parts.now }
    ensures { IfOk result (λ pairs. AreGuards parts.now (length parts.now.ways.items) pairs.items) }
{
    let mut names = Vec::new(alloc);
    let mut pairs = Vec::new(alloc);
    for (n, way) in parts.ways.iter().enumerate() {
        match &way.body {
            WayBody::Local(guard, _) => add_named_pairs(guard, n as u32, &mut names, &mut pairs)?,
            WayBody::Sync(_) => {}
        }
    }
    Ok(pairs)
}

// The pairs of a way and a way that has it as a part.
fn ways_above(alloc: Global, parts: &GtsParts) -> Result<Vec<(u32, u32)>, Memory>
    requires { IsSound parts.now }
    ensures { IfOk result (λ pairs. AreAbove parts.now (length parts.now.ways.items) pairs.items) }
{
    let mut pairs = Vec::new(alloc);
    for (n, way) in parts.ways.iter().enumerate() {
        match &way.body {
            WayBody::Local(_, _) => {}
            WayBody::Sync(parts) => add_each(parts, n as u32, &mut pairs)?,
        }
    }
    Ok(pairs)
}

// Adds the pairs of these parts.
fn add_each(parts: &[(bool, WayId)], n: u32, pairs: &mut Vec<(u32, u32)>) -> Result<(), Memory>
    ensures { IfOk result (λ _. AddsParts parts.now n pairs.old.items pairs.new.items) }
{
    for (_, part) in parts {
        pairs.push((part.n, n))?;
    }
    Ok(())
}
