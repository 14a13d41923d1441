//! The places of the ways that wait to be looked at.

ghost use Rattle.std.specs.Prelude.{◌≡◌, ◌≢◌, ◌⊎◌, ◌↔◌, ◌<◌, ◌∷◌, ℕ, length, map, IfOk, OnOk, IfSome, IfNone};
ghost use Rattle.ar_base.specs.Lists.{IsOneOf};
ghost use Rattle.ar_base.specs.Numbers.{VarId as Variables};
ghost use Rattle.ar_base.specs.Pairing.{IsPaired};
ghost use Rattle.gts_core.specs.declared.system.GtsParts.{GtsParts as Parts};
ghost use Rattle.way_flags.specs.Index.{IsWayIndex};
ghost use Rattle.way_flags.specs.Renewing.{WaitsAt, IsPlaceWith};

use crate::index::WayIndex;
use ar_base::{Memory, VarId, WayId, paired_by};
use std::alloc::Global;
use std::collections::BTreeSet;

/// Takes the first place that waits.
pub(crate) fn take_place(waiting: &mut BTreeSet<usize>) -> Option<usize>
    ensures first { IfSome result (λ place. waiting.old.keys ≡ place ∷ waiting.new.keys) }
    ensures rest { IfSome result (λ place. (q : ℕ) → WaitsAt waiting.new q
        ↔ (WaitsAt waiting.old q × (q ≢ place))) }
    ensures is { IfSome result (λ place. WaitsAt waiting.old place) }
    ensures later { IfSome result (λ place. (q : ℕ) → WaitsAt waiting.new q → place < q) }
    ensures none { IfNone result ((q : ℕ) → WaitsAt waiting.old q → ⊥) }
{
    waiting.pop_first()
}

// Adds a place.
fn add_place(waiting: &mut BTreeSet<usize>, place: usize) -> Result<(), Memory>
    ensures { OnOk result ((q : ℕ) → WaitsAt waiting.new q
        ↔ (WaitsAt waiting.old q ⊎ (q ≡ place))) }
{
    waiting.insert(place)?;
    Ok(())
}

// Adds the places of these ways.
fn add_ways(waiting: &mut BTreeSet<usize>, places: &[usize], ways: &[u32]) -> Result<(), Memory>
    requires { (n : ℕ) → IsOneOf ways.now n → n < length places.now }
    ensures { OnOk result ((q : ℕ) → WaitsAt waiting.new q
        ↔ (WaitsAt waiting.old q ⊎ IsPlaceWith places.now (IsOneOf ways.now) q)) }
{
    for way in ways {
        add_place(waiting, places[*way as usize])?;
    }
    Ok(())
}

/// The places of the ways whose guards name one of these variables.
pub(crate) fn first_waiting(
    alloc: Global,
    index: &WayIndex,
    changed: &[VarId],
) -> Result<BTreeSet<usize>, Memory>
    requires { (p : Parts) × IsWayIndex p index.now }
    ensures { IfOk result (λ waiting. (q : ℕ) → WaitsAt waiting q
        ↔ IsPlaceWith index.now.places.items
        (IsPaired index.now.guards.pairs.items (map (λ (x : Variables). x.n) changed.now)) q) }
{
    let numbers = numbers_of(alloc, changed)?;
    let ways = paired_by(alloc, &index.guards, &numbers)?;
    let mut waiting = BTreeSet::new(alloc);
    add_ways(&mut waiting, &index.places, &ways)?;
    Ok(waiting)
}

// The numbers of these variables.
fn numbers_of(alloc: Global, variables: &[VarId]) -> Result<Vec<u32>, Memory>
    ensures { IfOk result (λ numbers. numbers.items ≡ map (λ (x : Variables). x.n) variables.now) }
{
    let mut numbers = Vec::new(alloc);
    for variable in variables {
        numbers.push(variable.n)?;
    }
    Ok(numbers)
}

/// Adds the places of the ways that have this way as a part.
pub(crate) fn add_above(
    alloc: Global,
    index: &WayIndex,
    way: WayId,
    waiting: &mut BTreeSet<usize>,
) -> Result<(), Memory>
    requires { (p : Parts) × IsWayIndex p index.now }
    ensures { OnOk result ((q : ℕ) → WaitsAt waiting.new q
        ↔ (WaitsAt waiting.old q ⊎ IsPlaceWith index.now.places.items
        (λ n. IsOneOf index.now.above.pairs.items (way.n, n)) q)) }
{
    let ways = paired_by(alloc, &index.above, &[way.n])?;
    add_ways(waiting, &index.places, &ways)
}
