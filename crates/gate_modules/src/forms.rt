//! The short forms of a family's sets.

ghost use Rattle.std.specs.Prelude.{◌≡◌, false, not, IfOk, OnOk, MatchOption, map};
ghost use Rattle.std.specs.List.{filter};
ghost use Rattle.zdd_nodes.specs.Nodes.{family, IsFamilyNumber};
ghost use Rattle.gate_modules.specs.Modules.{lies as lies_in};
ghost use Rattle.gate_modules.specs.Shortened.{touches as has_touched, is_covered as covered_by};
ghost use Rattle.gate_modules.specs.ShortenedInside.{event_numbers};
ghost use Rattle.gate_modules.specs.Shortened.{units_where};
ghost use Rattle.gate_modules.specs.ShortenedInside.{short_form_of as form_made};
ghost use Rattle.gate_modules.specs.Forms.{AreOfDifferentUnits, PassesTaken, AddsForms, IsSkip, IsEventOfRange};

use crate::entries::exit;
use crate::parts::longer;
use crate::ranges::{Range, ShortSet};
use ar_base::{EventId, Memory, UnitId};
use std::alloc::Global;
use zdd_nodes::{NodeId, Store, below};

/// Adds the short forms of the number's sets, each set behind these events, each form once, in the order of the first set
/// that has it.
pub(crate) fn add_forms(
    alloc: Global,
    store: &Store,
    chosen: &[Range],
    number: NodeId,
    taken: &[EventId],
    forms: &mut Vec<ShortSet>,
) -> Result<(), Memory>
    requires in_store { IsFamilyNumber store.now number.n }
    requires units { AreOfDifferentUnits chosen.now }
    requires fit { PassesTaken chosen.now (event_numbers taken.now) (family store.now number.n) }
    ensures { OnOk result (AddsForms chosen.now (event_numbers taken.now) (family store.now number.n)
        (map form_made forms.old.items) (map form_made forms.new.items)) }
{
    let Some((event, lo, hi)) = store.split(number) else {
        // 1 is the family of the empty set, 0 the empty family.
        if number.n == 1 {
            let units = units_of(alloc, chosen, taken)?;
            let events = free_events(alloc, chosen, taken)?;
            forms.push(ShortSet { units, events })?;
        }
        return Ok(());
    };
    let more = longer(alloc, taken, event)?;
    match holder(chosen, event) {
        None => {
            add_forms(alloc, store, chosen, hi, &more, forms)?;
            add_forms(alloc, store, chosen, lo, taken, forms)?;
            Ok(())
        }
        Some(range) => {
            let end = exit(store, range.to, hi);
            let rest = skip(store, range.to, lo);
            add_forms(alloc, store, chosen, end, &more, forms)?;
            add_forms(alloc, store, chosen, rest, taken, forms)?;
            Ok(())
        }
    }
}

// What follows no event of the number below the bound.
fn skip(store: &Store, to: u32, number: NodeId) -> NodeId
    requires { IsFamilyNumber store.now number.n }
    ensures { IsSkip store.now to number.n result.n }
{
    match below(store, to, number) {
        Some((_, lo, _)) => skip(store, to, lo),
        None => number,
    }
}

// The units of these ranges of which one of the events is.
fn units_of(alloc: Global, chosen: &[Range], taken: &[EventId]) -> Result<Vec<UnitId>, Memory>
    ensures { IfOk result
        (λ units. map (λ u. u.n) units.items
        ≡ units_where (has_touched (event_numbers taken.now)) chosen.now) }
{
    let mut units = Vec::new(alloc);
    for range in chosen {
        if touches(taken, *range) {
            units.push(range.unit)?;
        }
    }
    Ok(units)
}

// Those of the events that are of none of these ranges.
fn free_events(alloc: Global, chosen: &[Range], taken: &[EventId]) -> Result<Vec<EventId>, Memory>
    ensures { IfOk result
        (λ events. event_numbers events.items ≡ filter (λ e. not (covered_by chosen.now e))
        (event_numbers taken.now)) }
{
    let mut events = Vec::new(alloc);
    for event in taken {
        if is_free(chosen, *event) {
            events.push(*event)?;
        }
    }
    Ok(events)
}

// Whether the event is of none of these ranges.
fn is_free(chosen: &[Range], event: EventId) -> bool
    ensures { result ≡ not (covered_by chosen.now event.n) }
{
    for range in chosen {
        if lies(*range, event) {
            return false;
        }
    }
    true
}

// The range of which the event is.
fn holder(chosen: &[Range], event: EventId) -> Option<Range>
    ensures { MatchOption result (covered_by chosen.now event.n ≡ false)
        (λ r. IsEventOfRange chosen.now event.n r) }
{
    for range in chosen {
        if lies(*range, event) {
            return Some(*range);
        }
    }
    None
}

// Whether one of the events is of the range.
fn touches(taken: &[EventId], range: Range) -> bool
    ensures { result ≡ has_touched (event_numbers taken.now) range }
{
    for event in taken {
        if lies(range, *event) {
            return true;
        }
    }
    false
}

// Whether the event is of the range.
fn lies(range: Range, event: EventId) -> bool
    ensures { result ≡ lies_in range event.n }
{
    range.from <= event.n && event.n < range.to
}
