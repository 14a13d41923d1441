//! How the flags follow the values.

ghost use Rattle.std.specs.Prelude.{◌≡◌, ◌<◌, ℕ, Bool, List, [], IfOk, OnErr, OnOk};
ghost use Rattle.gts_core.specs.Sound.{IsSound};
ghost use Rattle.gts_core.specs.Readings.{IsTotal};
ghost use Rattle.way_flags.specs.Ways.{AreFlags};
ghost use Rattle.way_flags.specs.Index.{IsWayIndex};
ghost use Rattle.way_flags.specs.Turning.{flags_turned, AreWaysOfSystem};
ghost use Rattle.way_flags.specs.Renewing.{WereFlags, WaitsAt, IsSettledBut, AreFlagsSettled, AreBehind, AreLooked, AreTurned};

use crate::flags::{can_fire, set_all, unset};
use crate::index::WayIndex;
use crate::is_set;
use crate::turning::{turn, turn_one};
use crate::waiting::{add_above, first_waiting, take_place};
use ar_base::{Memory, VarId, WayId};
use domains::Value;
use gts_core::GtsParts;
use std::alloc::Global;
use std::collections::BTreeSet;

/// For each way whether it can fire. The error is want of memory.
pub fn way_flags(
    alloc: Global,
    parts: &GtsParts,
    index: &WayIndex,
    values: &[Value],
) -> Result<Vec<bool>, Memory>
    requires sound { IsSound parts.now }
    requires index { IsWayIndex parts.now index.now }
    requires total { IsTotal parts.now values.now }
    ensures { IfOk result (λ can. AreFlags parts.now values.now can.items) }
{
    let mut can = unset(alloc, parts.ways.len())?;
    set_all(parts, &index.order, values, &mut can);
    Ok(can)
}

/// Makes flags right after these variables changed, and answers the ways whose flags were turned, each once. Only ways whose guards
/// name one of the variables are looked at, and ways above one whose flag was turned. The error is want of memory; the
/// flags are then as they were.
pub fn renew(
    alloc: Global,
    parts: &GtsParts,
    index: &WayIndex,
    values: &[Value],
    changed: &[VarId],
    can: &mut Vec<bool>,
) -> Result<Vec<WayId>, Memory>
    requires sound { IsSound parts.now }
    requires index { IsWayIndex parts.now index.now }
    requires total { IsTotal parts.now values.now }
    requires were { WereFlags parts.now values.now changed.now can.old.items }
    ensures flags { OnOk result (AreFlags parts.now values.now can.new.items) }
    ensures ways { IfOk result (λ ways. AreWaysOfSystem parts.now ways.items) }
    ensures back { IfOk result (λ ways. can.old.items ≡ flags_turned can.new.items ways.items) }
    ensures err { OnErr result (can.new.items ≡ can.old.items) }
{
    let waiting = first_waiting(alloc, index, changed)?;
    let mut ways = Vec::new(alloc);
    match look_at_all(alloc, parts, index, values, waiting, can, &mut ways) {
        Ok(()) => Ok(ways),
        Err(memory) => {
            turn(can, &ways);
            Err(memory)
        }
    }
}

// Looks at the ways that wait until none does.
fn look_at_all(
    alloc: Global,
    parts: &GtsParts,
    index: &WayIndex,
    values: &[Value],
    waiting: BTreeSet<usize>,
    can: &mut Vec<bool>,
    ways: &mut Vec<WayId>,
) -> Result<(), Memory>
    requires sound { IsSound parts.now }
    requires index { IsWayIndex parts.now index.now }
    requires total { IsTotal parts.now values.now }
    requires settled { AreFlagsSettled parts.now index.now.places.items values.now waiting
        can.old.items }
    requires none { ways.old.items ≡ [] }
    ensures flags { OnOk result (AreFlags parts.now values.now can.new.items) }
    ensures ways { OnOk result (AreWaysOfSystem parts.now ways.new.items) }
    ensures turned { AreTurned can.old.items can.new.items ways.new.items }
{
    let mut waiting = waiting;
    while let Some(place) = take_place(&mut waiting) {
        look_at(alloc, parts, index, values, place, &mut waiting, can, ways)?;
    }
    Ok(())
}

// Looks at the way at a place. Where its flag is turned, the ways above it wait.
fn look_at(
    alloc: Global,
    parts: &GtsParts,
    index: &WayIndex,
    values: &[Value],
    place: usize,
    waiting: &mut BTreeSet<usize>,
    can: &mut Vec<bool>,
    ways: &mut Vec<WayId>,
) -> Result<(), Memory>
    requires sound { IsSound parts.now }
    requires index { IsWayIndex parts.now index.now }
    requires settled { IsSettledBut parts.now index.now.places.items values.now place waiting.old
        can.old.items }
    requires behind { AreBehind parts.now index.now.places.items place ways.old.items }
    ensures settled { OnOk result (AreFlagsSettled parts.now index.now.places.items values.now
        waiting.new can.new.items) }
    ensures later { OnOk result ((q : ℕ) → WaitsAt waiting.new q → place < q) }
    ensures looked { OnOk result (AreLooked parts.now index.now.places.items waiting.new
        ways.new.items) }
    ensures turned { (first : List Bool) → AreTurned first can.old.items ways.old.items
        → AreTurned first can.new.items ways.new.items }
{
    let way = index.order[place];
    let now = can_fire(values, can, &parts.ways[way.n as usize].body);
    if now == is_set(can, way) {
        return Ok(());
    }
    add_above(alloc, index, way, waiting)?;
    ways.push(way)?;
    turn_one(can, way);
    Ok(())
}
