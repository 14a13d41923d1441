//! The ways that take part where a way is fired.

ghost use Rattle.std.specs.Prelude.{◌≡◌, ◌<◌, ◌⊎◌, ◌↔◌, ℕ, not, length, IfOk, OnOk};
ghost use Rattle.std.specs.BTreeSet.{contains};
ghost use Rattle.std.specs.Ordering.{nat_cmp};
ghost use Rattle.gts_core.specs.Sound.{IsSound};
ghost use Rattle.way_flags.specs.Taking.{AreTakers, takes_part};
ghost use Rattle.way_flags.specs.Meeting.{AreMet, IsIn, MeetsWays, MeetsParts};

use crate::is_set;
use ar_base::{Memory, WayId};
use gts_core::{GtsParts, WayBody};
use std::alloc::Global;
use std::collections::BTreeSet;

/// Ways that were met, each once, and the set of their numbers.
#[derive(Drop)]
pub(crate) struct Met {
    /// The ways in the order in which they were met.
    ways: Vec<WayId>,
    /// Their numbers.
    numbers: BTreeSet<u32>,
}

/// The ways that take part where a way is fired, each once: itself, its parts that are marked `!` and those parts marked
/// `?` that can fire, and so on below them.
///
/// The list is gone through while it grows, so each way is looked at once.
pub(crate) fn takers(
    alloc: Global,
    parts: &GtsParts,
    flags: &[bool],
    way: WayId,
) -> Result<Vec<WayId>, Memory>
    requires sound { IsSound parts.now }
    requires inside { way.n < length parts.now.ways.items }
    ensures { IfOk result (λ ways. AreTakers parts.now flags.now way.n ways.items) }
{
    let mut met = Met {
        ways: Vec::new(alloc),
        numbers: BTreeSet::new(alloc),
    };
    meet(way, &mut met)?;
    let mut done = 0;
    while done < met.ways.len() {
        let next = met.ways[done];
        meet_parts(&parts.ways[next.n as usize].body, flags, &mut met)?;
        done += 1;
    }
    let Met { ways, numbers: _ } = met;
    Ok(ways)
}

// Meets the parts of a way that take part.
fn meet_parts(body: &WayBody, flags: &[bool], met: &mut Met) -> Result<(), Memory>
    requires { AreMet met.old }
    ensures { OnOk result (MeetsParts flags.now body.now met.old met.new) }
{
    if let WayBody::Sync(parts) = body {
        for (must, way) in parts {
            if takes_part(flags, *must, *way) {
                meet(*way, met)?;
            }
        }
    }
    Ok(())
}

// Whether a part takes part where its way does.
fn takes_part(flags: &[bool], must: bool, way: WayId) -> bool
    ensures { result ≡ takes_part flags.now (must, way) }
{
    must || is_set(flags, way)
}

// Meets a way, which changes nothing where it was met before.
fn meet(way: WayId, met: &mut Met) -> Result<(), Memory>
    requires { AreMet met.old }
    ensures { OnOk result (MeetsWays (λ n. n ≡ way.n) met.old met.new) }
{
    if add_number(&mut met.numbers, way.n)? {
        met.ways.push(way)?;
    }
    Ok(())
}

// Adds a number, and says whether it is new.
fn add_number(numbers: &mut BTreeSet<u32>, n: u32) -> Result<bool, Memory>
    ensures new { IfOk result (λ added. added ≡ not (contains nat_cmp numbers.old n)) }
    ensures all { OnOk result ((m : ℕ) → IsIn numbers.new m ↔ (IsIn numbers.old m ⊎ (m ≡ n))) }
{
    Ok(numbers.insert(n)?)
}
