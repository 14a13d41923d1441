//! The assignments that wait to be looked at.

ghost use Rattle.std.specs.Prelude.{◌≡◌, ◌≢◌, ◌+◌, ◌<◌, ◌≤◌, ◌⊎◌, ◌↔◌, ℕ, length, IfOk, OnOk, IfSome, IfNone, MatchOption};
ghost use Rattle.std.specs.BTreeSet.{btree_set_len};
ghost use Rattle.ar_base.specs.Lists.{IsOneOf, Stands};
ghost use Rattle.flow_propagate.specs.Plan.{IsNumberOrder, Reader};
ghost use Rattle.flow_propagate.specs.Closing.{IsWorklist, IsAddedAgain, WaitsAtPlace, Waits, TakesWorkPlace, TakesAssignment, AddsWork};

use crate::pairs::{Runs, pairs_of};
use ar_base::{AssignId, Memory, VarId};
use std::alloc::Global;
use std::collections::BTreeSet;

/// The assignments that wait to be looked at.
///
/// All assignments stand in one order: by the class of the target, then by how many variables they name, then by number.
/// The first one in this order that waits comes next. So an assignment that names many flows of its class is looked at
/// after those that name fewer, and not again after each of them.
#[derive(Drop)]
pub(crate) struct Worklist<'a> {
    /// The assignments in their order.
    pub(crate) order: &'a [u32],
    /// The place of each assignment in the order.
    pub(crate) places: &'a [usize],
    /// The place from which on no assignment was looked at yet.
    pub(crate) fresh: usize,
    /// The places before it of the assignments that were added again.
    pub(crate) again: BTreeSet<usize>,
}

// Takes the next assignment.
pub(crate) fn take(work: &mut Worklist<'_>) -> Option<u32>
    requires { IsWorklist (length work.old.places.now) work.old }
    ensures { MatchOption result ((n : ℕ) → Waits work.old n → ⊥)
        (λ n. TakesAssignment (length work.old.places.now) n work.old work.new) }
{
    let place = take_place(work)?;
    Some(work.order[place])
}

// Takes the first place that waits.
fn take_place(work: &mut Worklist<'_>) -> Option<usize>
    requires { IsWorklist (length work.old.places.now) work.old }
    ensures { MatchOption result ((p : ℕ) → p < length work.old.order.now → WaitsAtPlace work.old p → ⊥)
        (λ place. TakesWorkPlace place work.old work.new) }
{
    if let Some(place) = take_again(&mut work.again) {
        return Some(place);
    }
    if work.fresh >= work.order.len() {
        return None;
    }
    let place = work.fresh;
    work.fresh += 1;
    Some(place)
}

// Takes the least place of those that were added again.
fn take_again(again: &mut BTreeSet<usize>) -> Option<usize>
    ensures some { IfSome result (λ place. IsAddedAgain again.old place) }
    ensures rest { IfSome result (λ place. (p : ℕ) → IsAddedAgain again.new p
        ↔ (IsAddedAgain again.old p × (p ≢ place))) }
    ensures less { IfSome result (λ _. btree_set_len again.old ≡ btree_set_len again.new + 1) }
    ensures none { IfNone result ((p : ℕ) → IsAddedAgain again.old p → ⊥) }
    ensures still { IfNone result ((p : ℕ) → IsAddedAgain again.new p → ⊥) }
    ensures few { IfNone result (btree_set_len again.old ≡ btree_set_len again.new) }
{
    again.pop_first()
}

// Adds an assignment, where it does not wait.
fn add(assign: u32, work: &mut Worklist<'_>) -> Result<(), Memory>
    requires is { IsWorklist (length work.old.places.now) work.old }
    requires below { assign < length work.old.places.now }
    ensures { IfOk result (λ _. AddsWork (length work.old.places.now) 1 (λ m. m ≡ assign) work.old
        work.new) }
{
    let place = work.places[assign as usize];
    if work.fresh <= place {
        return Ok(());
    }
    add_again(&mut work.again, place)
}

// Adds a place to those that were added again.
fn add_again(again: &mut BTreeSet<usize>, place: usize) -> Result<(), Memory>
    ensures all { OnOk result ((p : ℕ) → IsAddedAgain again.new p
        ↔ (IsAddedAgain again.old p ⊎ (p ≡ place))) }
    ensures few { OnOk result (btree_set_len again.new ≤ btree_set_len again.old + 1) }
{
    again.insert(place)?;
    Ok(())
}

// Adds the assignments of these pairs.
fn add_all(readers: &[(VarId, AssignId)], work: &mut Worklist<'_>) -> Result<(), Memory>
    requires is { IsWorklist (length work.old.places.now) work.old }
    requires below { (r : Reader) → IsOneOf readers.now r → r.1.n < length work.old.places.now }
    ensures { IfOk result (λ _. AddsWork (length work.old.places.now) (length readers.now)
        (λ m. (r : Reader) × IsOneOf readers.now r × (r.1.n ≡ m)) work.old work.new) }
{
    for (_, assign) in readers {
        add(assign.n, work)?;
    }
    Ok(())
}

// Adds the assignments that read a variable.
pub(crate) fn add_readers(
    readers: &Runs,
    variable: u32,
    work: &mut Worklist<'_>,
) -> Result<(), Memory>
    requires is { IsWorklist (length work.old.places.now) work.old }
    requires below { (r : Reader) → IsOneOf readers.now.pairs.items r
        → r.1.n < length work.old.places.now }
    ensures { IfOk result (λ _. AddsWork (length work.old.places.now)
        (length readers.now.pairs.items)
        (λ m. (r : Reader) × IsOneOf readers.now.pairs.items r × (r.0.n ≡ variable) × (r.1.n ≡ m))
        work.old work.new) }
{
    let run = pairs_of(readers, variable);
    add_all(run, work)
}

// All assignments, none of which was looked at.
pub(crate) fn all_waiting<'a>(alloc: Global, order: &'a [u32], places: &'a [usize]) -> Worklist<'a>
    requires order { IsNumberOrder (length places.now) order.now }
    requires placed { (n place : ℕ) → Stands places.now n place → Stands order.now place n }
    ensures is { IsWorklist (length places.now) result }
    ensures all { (n : ℕ) → n < length places.now → Waits result n }
{
    let again = BTreeSet::new(alloc);
    Worklist {
        order,
        places,
        fresh: 0,
        again,
    }
}
