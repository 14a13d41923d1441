//! The places of the assignments that wait to be looked at.

ghost use Rattle.std.specs.Prelude.{◌≡◌, ◌≢◌, ◌+◌, ◌<◌, ◌≤◌, ◌⊎◌, ◌↔◌, ℕ, length, IfOk, OnOk, IfSome, IfNone, MatchOption};
ghost use Rattle.std.specs.BTreeSet.{btree_set_len};
ghost use Rattle.ar_base.specs.Lists.{IsOneOf, Stands};
ghost use Rattle.flow_propagate.specs.Plan.{Reader};
ghost use Rattle.flow_propagate.specs.Closing.{IsAddedAgain};
ghost use Rattle.flow_changes.specs.Queue.{PlaceWaits, IsQueue, TakesPlace, AddsPlaces, IsPairPlace};

use ar_base::{AssignId, Memory, VarId};
use std::collections::BTreeSet;

/// The places of the assignments that wait: those of a list, ascending, from one on, and those that were added again.
///
/// The least place that waits comes next.
#[derive(Drop)]
pub(crate) struct Queue {
    /// The places.
    pub(crate) list: Vec<usize>,
    /// How many of the list were taken.
    pub(crate) next: usize,
    /// The places before it that were added again.
    pub(crate) again: BTreeSet<usize>,
}

// Takes the least place that waits.
pub(crate) fn take(work: &mut Queue) -> Option<usize>
    requires { IsQueue work.old }
    ensures same { work.new.list.items ≡ work.old.list.items }
    ensures takes { MatchOption result ((q : ℕ) → PlaceWaits work.old q → ⊥)
        (λ q. TakesPlace q work.old work.new) }
{
    if let Some(place) = take_again(&mut work.again) {
        return Some(place);
    }
    if work.next >= work.list.len() {
        return None;
    }
    let place = work.list[work.next];
    work.next += 1;
    Some(place)
}

// Takes the least of the places that were added again.
fn take_again(again: &mut BTreeSet<usize>) -> Option<usize>
    ensures some { IfSome result (λ place. IsAddedAgain again.old place) }
    ensures rest { IfSome result (λ place. (p : ℕ) → IsAddedAgain again.new p
        ↔ (IsAddedAgain again.old p × (p ≢ place))) }
    ensures less { IfSome result (λ _. btree_set_len again.old ≡ btree_set_len again.new + 1) }
    ensures none { IfNone result ((p : ℕ) → IsAddedAgain again.old p → ⊥) }
    ensures still { IfNone result ((p : ℕ) → IsAddedAgain again.new p → ⊥) }
    ensures few { IfNone result (btree_set_len again.old ≡ btree_set_len again.new) }
{
    again.pop_first()
}

// Adds a place of the list, where it does not wait.
fn add(place: usize, work: &mut Queue) -> Result<(), Memory>
    requires is { IsQueue work.old }
    requires one { IsOneOf work.old.list.items place }
    ensures { IfOk result (λ _. AddsPlaces 1 (λ q. q ≡ place) work.old work.new) }
{
    if work.next < work.list.len() && work.list[work.next] <= place {
        return Ok(());
    }
    add_again(&mut work.again, place)
}

// Adds a place to those that were added again.
fn add_again(again: &mut BTreeSet<usize>, place: usize) -> Result<(), Memory>
    ensures all { OnOk result ((p : ℕ) → IsAddedAgain again.new p
        ↔ (IsAddedAgain again.old p ⊎ (p ≡ place))) }
    ensures few { OnOk result (btree_set_len again.new ≤ btree_set_len again.old + 1) }
{
    again.insert(place)?;
    Ok(())
}

// Adds the places of the assignments of these pairs.
pub(crate) fn add_all(
    pairs: &[(VarId, AssignId)],
    places: &[usize],
    work: &mut Queue,
) -> Result<(), Memory>
    requires is { IsQueue work.old }
    requires within { (r : Reader) → IsOneOf pairs.now r → r.1.n < length places.now }
    requires one { (r : Reader) (q : ℕ) → IsOneOf pairs.now r → Stands places.now r.1.n q
        → IsOneOf work.old.list.items q }
    ensures { IfOk result (λ _. AddsPlaces (length pairs.now) (IsPairPlace places.now pairs.now)
        work.old work.new) }
{
    for (_, assign) in pairs {
        add(places[assign.n as usize], work)?;
    }
    Ok(())
}
