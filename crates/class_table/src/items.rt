//! The first item that breaks rule L1.

ghost use Rattle.std.specs.Prelude.{◌≡◌, ◌↔◌, IsTrue, IfOk};
ghost use Rattle.class_table.specs.Earliest.{IsEarliest};
ghost use Rattle.class_table.specs.Rules.{item_name, item_place, IsNoDomain, BreaksItems};
ghost use Rattle.class_table.specs.Items.{IsNoDomainItem, HasNoDomain, IsNoRange, AreNoSymbols};

use crate::earliest::earliest;
use crate::repeats::Repeats;
use ar_base::{Memory, NameId, Place};
use ar_syntax::{DomainBody, Item};
use std::alloc::Global;

/// The greatest number of values of a domain.
const MOST_VALUES: usize = 256;

/// The earliest place of a later one of two items of one name, or of a domain that is none.
pub(crate) fn first_wrong_item(alloc: Global, items: &[Item]) -> Result<Option<Place>, Memory>
    ensures { IfOk result (IsEarliest (BreaksItems items.now)) }
{
    let mut names = Repeats::new(alloc);
    for item in items {
        let (name, at) = named(item);
        names.add(name, at)?;
    }
    let wrong = first_no_domain(alloc, items)?;
    Ok(earliest(names.found, wrong))
}

// The name of an item, and where it stands.
fn named(item: &Item) -> (NameId, Place)
    ensures name { result.0 ≡ item_name item.now }
    ensures place { result.1 ≡ item_place item.now }
{
    match item {
        Item::Domain(domain) => (domain.name, domain.at),
        Item::Class(unit) => (unit.name, unit.at),
        Item::Block(unit) => (unit.name, unit.at),
    }
}

// The earliest place of a domain that is none.
fn first_no_domain(alloc: Global, items: &[Item]) -> Result<Option<Place>, Memory>
    ensures { IfOk result (IsEarliest (HasNoDomain items.now)) }
{
    let mut found = None;
    for item in items {
        found = earliest(found, no_domain(alloc, item)?);
    }
    Ok(found)
}

// The place of an item that is a domain with a symbol twice, with bounds turned round, or with too many values.
fn no_domain(alloc: Global, item: &Item) -> Result<Option<Place>, Memory>
    ensures { IfOk result (IsEarliest (IsNoDomainItem item.now)) }
{
    match item {
        Item::Domain(domain) => {
            if is_no_domain(alloc, &domain.body)? {
                Ok(Some(domain.at))
            } else {
                Ok(None)
            }
        }
        Item::Class(_) => Ok(None),
        Item::Block(_) => Ok(None),
    }
}

fn is_no_domain(alloc: Global, body: &DomainBody) -> Result<bool, Memory>
    ensures { IfOk result (λ is_none. IsTrue is_none ↔ IsNoDomain body.now) }
{
    match body {
        DomainBody::Range(low, high) => Ok(is_no_range(*low, *high)),
        DomainBody::Symbols(symbols) => are_no_symbols(alloc, symbols),
    }
}

// Whether the bounds are turned round or too far apart.
fn is_no_range(low: i64, high: i64) -> bool
    ensures { IsTrue result ↔ IsNoRange low high }
{
    high < low || low.saturating_add(255) < high
}

// Whether a symbol stands twice or there are too many.
fn are_no_symbols(alloc: Global, symbols: &[(NameId, Place)]) -> Result<bool, Memory>
    ensures { IfOk result (λ is_none. IsTrue is_none ↔ AreNoSymbols symbols.now) }
{
    if symbols.len() > MOST_VALUES {
        return Ok(true);
    }
    let mut names = Repeats::new(alloc);
    names.add_all(symbols)?;
    Ok(names.found.is_some())
}
