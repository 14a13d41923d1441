//! The ways in an order in which each comes after its parts.

ghost use Rattle.std.specs.Prelude.{◌≡◌, ◌<◌, ◌≤◌, ℕ, true, length, map, IfOk, OnOk};
ghost use Rattle.ar_meaning.specs.Systems.{Way, Branches, Transition};
ghost use Rattle.ar_meaning.specs.Numbered.{height, branches_height, Mean_parts};
ghost use Rattle.ar_base.specs.Lists.{Stands};
ghost use Rattle.gts_core.specs.Sound.{IsSound};
ghost use Rattle.gts_core.specs.declared.system.Way.{Way as Ways};
ghost use Rattle.gts_core.specs.View.{IsWayAt, way_bodies, part_of};
ghost use Rattle.way_flags.specs.Parts.{are_set, flag_at};
ghost use Rattle.way_flags.specs.Ways.{IsWayOrder, IsPlacing, are_placed, KeepsMarks};

use crate::flags::unset;
use crate::is_set;
use crate::sequence::parts_first;
use ar_base::{Memory, WayId};
use gts_core::{GtsParts, WayBody};
use std::alloc::Global;

/// Ways that were put in order, and for each way whether it is among them.
#[derive(Drop)]
pub(crate) struct Placing {
    order: Vec<WayId>,
    placed: Vec<bool>,
}

/// All ways of a system, each after its parts.
///
/// They are put in the order by a recursion over parts. A sequence in which parts mostly come first is gone through
/// before, so that the recursion stays shallow however deep synchronisations are nested.
pub(crate) fn way_order(alloc: Global, parts: &GtsParts) -> Result<Vec<WayId>, Memory>
    requires { IsSound parts.now }
    ensures { IfOk result (λ order. IsWayOrder parts.now order.items) }
{
    let most = parts.ways.len() as u32;
    let mut placing = Placing {
        order: Vec::new(alloc),
        placed: unset(alloc, parts.ways.len())?,
    };
    let sequence = parts_first(alloc, parts)?;
    place_each(parts, &sequence, most, &mut placing)?;
    for n in 0..most {
        place(parts, WayId::new(n), most, &mut placing)?;
    }
    let Placing { order, placed: _ } = placing;
    Ok(order)
}

// Places those of these ways that are ways of the system.
fn place_each(
    parts: &GtsParts,
    ways: &[WayId],
    most: u32,
    placing: &mut Placing,
) -> Result<(), Memory>
    requires sound { IsSound parts.now }
    requires most { most ≡ length parts.now.ways.items }
    requires order { IsPlacing parts.now placing.old.order.items placing.old.placed.items }
    ensures { OnOk result (IsPlacing parts.now placing.new.order.items placing.new.placed.items) }
{
    for way in ways {
        if way.n < most {
            place(parts, *way, most, placing)?;
        }
    }
    Ok(())
}

// Places a way behind its parts, where it is not placed yet. No more than `left` joints stand above one another in it,
// since no way leads back to itself.
#[cycle(place)]
fn place(parts: &GtsParts, way: WayId, left: u32, placing: &mut Placing) -> Result<(), Memory>
    requires deep { (w : Way ℕ) × IsWayAt parts.now way.n w × (height w ≤ left) }
    requires order { IsPlacing parts.now placing.old.order.items placing.old.placed.items }
    ensures order { OnOk result (IsPlacing parts.now placing.new.order.items
        placing.new.placed.items) }
    ensures keeps { OnOk result (KeepsMarks placing.old.placed.items placing.new.placed.items) }
    ensures placed { OnOk result (flag_at placing.new.placed.items way.n ≡ true) }
{
    let body = &parts.ways[way.n as usize].body;
    if let WayBody::Sync(ways) = body {
        place_parts(parts, ways, left - 1, placing)?;
    }
    put(parts, way, placing)
}

// Places the parts of a way.
#[cycle(place)]
fn place_parts(
    parts: &GtsParts,
    ways: &[(bool, WayId)],
    left: u32,
    placing: &mut Placing,
) -> Result<(), Memory>
    requires deep { (bs : Branches (Transition ℕ))
        × Mean_parts (way_bodies parts.now) (map part_of ways.now) bs × (branches_height bs ≤ left) }
    requires order { IsPlacing parts.now placing.old.order.items placing.old.placed.items }
    ensures order { OnOk result (IsPlacing parts.now placing.new.order.items
        placing.new.placed.items) }
    ensures keeps { OnOk result (KeepsMarks placing.old.placed.items placing.new.placed.items) }
    ensures placed { OnOk result (are_set placing.new.placed.items ways.now ≡ true) }
{
    for (_, way) in ways {
        if !is_set(&placing.placed, *way) {
            place(parts, *way, left, placing)?;
        }
    }
    Ok(())
}

// Puts a way whose parts are placed behind the others, where it is not among them yet.
fn put(parts: &GtsParts, way: WayId, placing: &mut Placing) -> Result<(), Memory>
    requires within { way.n < length parts.now.ways.items }
    requires order { IsPlacing parts.now placing.old.order.items placing.old.placed.items }
    requires ready { (x : Ways) → Stands parts.now.ways.items way.n x
        → are_placed placing.old.placed.items x.body ≡ true }
    ensures order { OnOk result (IsPlacing parts.now placing.new.order.items
        placing.new.placed.items) }
    ensures keeps { OnOk result (KeepsMarks placing.old.placed.items placing.new.placed.items) }
    ensures placed { OnOk result (flag_at placing.new.placed.items way.n ≡ true) }
{
    if is_set(&placing.placed, way) {
        return Ok(());
    }
    placing.order.push(way)?;
    placing.placed[way.n as usize] = true;
    Ok(())
}
