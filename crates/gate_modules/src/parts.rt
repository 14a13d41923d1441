//! The parts of a unit, by one entry of its range.

ghost use Rattle.std.specs.Prelude.{◌≡◌, ◌++◌, ◌∷◌, [], IfOk, OnOk, map};
ghost use Rattle.zdd_nodes.specs.Nodes.{IsFamilyNumber};
ghost use Rattle.gate_modules.specs.ShortenedInside.{event_numbers, set_of};
ghost use Rattle.gate_modules.specs.Parts.{AddsHeads, AddsSomeHeads};

use crate::ranges::EventSet;
use ar_base::{EventId, Memory};
use std::alloc::Global;
use zdd_nodes::{NodeId, Store, below};

/// Adds the nonempty sets of events below the bound that sets of the number's family begin with, in the order of listing,
/// behind the sets that were found before.
pub(crate) fn add_some_parts(
    alloc: Global,
    store: &Store,
    to: u32,
    number: NodeId,
    sets: &mut Vec<EventSet>,
) -> Result<(), Memory>
    requires { IsFamilyNumber store.now number.n }
    ensures { OnOk result
        (AddsSomeHeads store.now to number.n (map set_of sets.old.items)
        (map set_of sets.new.items)) }
{
    match below(store, to, number) {
        Some((event, lo, hi)) => {
            let taken = longer(alloc, &[], event)?;
            add_parts(alloc, store, to, hi, &taken, sets)?;
            add_some_parts(alloc, store, to, lo, sets)?;
            Ok(())
        }
        None => Ok(()),
    }
}

// Adds the sets of events below the bound that sets of the number's family begin with, each behind these events.
fn add_parts(
    alloc: Global,
    store: &Store,
    to: u32,
    number: NodeId,
    taken: &[EventId],
    sets: &mut Vec<EventSet>,
) -> Result<(), Memory>
    requires { IsFamilyNumber store.now number.n }
    ensures { OnOk result
        (AddsHeads store.now to number.n (event_numbers taken.now) (map set_of sets.old.items)
        (map set_of sets.new.items)) }
{
    match below(store, to, number) {
        Some((event, lo, hi)) => {
            let more = longer(alloc, taken, event)?;
            add_parts(alloc, store, to, hi, &more, sets)?;
            add_parts(alloc, store, to, lo, taken, sets)?;
            Ok(())
        }
        None => {
            if number.n == 0 {
                return Ok(());
            }
            let events = copy_of(alloc, taken)?;
            sets.push(EventSet { events })?;
            Ok(())
        }
    }
}

/// The same events, and this one behind them.
pub(crate) fn longer(
    alloc: Global,
    events: &[EventId],
    event: EventId,
) -> Result<Vec<EventId>, Memory>
    ensures { IfOk result (λ all. all.items ≡ events.now ++ event ∷ []) }
{
    let mut all = copy_of(alloc, events)?;
    all.push(event)?;
    Ok(all)
}

// The same events.
fn copy_of(alloc: Global, events: &[EventId]) -> Result<Vec<EventId>, Memory>
    ensures { IfOk result (λ all. all.items ≡ events.now) }
{
    let mut all = Vec::new(alloc);
    for event in events {
        all.push(*event)?;
    }
    Ok(all)
}
