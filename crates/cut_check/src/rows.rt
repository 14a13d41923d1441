//! The events of lines as rows of bits over all events.

ghost use Rattle.std.specs.Prelude.{◌≡◌, ◌+◌, ◌/◌, ◌<◌, ◌⊎◌, ◌↔◌, ◌&&◌, ◌^◌, ℕ, List, Bool, IsTrue, length, IfOk};
ghost use Rattle.ar_meaning.specs.Found.{IsAnswer};
ghost use Rattle.lane_rows.specs.Rows.{IsSet, words_for};
ghost use Rattle.gts_core.specs.Sound.{IsSound};
ghost use Rattle.job_inputs.specs.Chains.{chain_labels, HaveKnownWays};
ghost use Rattle.job_inputs.specs.CutReads.{AreKnownWays};
ghost use Rattle.job_inputs.specs.NamingInside.{AreEventsOf};
ghost use Rattle.cut_check.specs.Flat.{flat_event_numbers};
ghost use Rattle.cut_check.specs.Rows.{AreOpenEvents, AreVisible, IsFreshEvent, IsRow, AreLineRows};

use ar_base::{EventId, Memory, WayId};
use gts_core::{Chain, GtsParts};
use lane_rows::{WORD_BITS, covers, has, set};
use std::alloc::Global;

/// The events of a line as a row of bits, and whether the line may be fired: each of its events stands
/// in it once, and is visible and not dropped.
#[derive(Drop)]
pub(crate) struct Row {
    /// The bits of the events.
    pub words: Vec<u64>,
    /// Whether the line may be fired.
    pub fit: bool,
}

/// Which events are visible and not dropped.
pub(crate) fn open_events(
    alloc: Global,
    parts: &GtsParts,
    dropped: &[EventId],
) -> Result<Vec<bool>, Memory>
    requires { AreEventsOf parts.now dropped.now }
    ensures { IfOk result (λ allowed.
        AreOpenEvents parts.now (flat_event_numbers dropped.now) allowed.items) }
{
    let mut allowed = visible_events(alloc, parts)?;
    for event in dropped {
        allowed[event.n as usize] = false;
    }
    Ok(allowed)
}

// Which events are visible.
fn visible_events(alloc: Global, parts: &GtsParts) -> Result<Vec<bool>, Memory>
    ensures { IfOk result (λ allowed. AreVisible parts.now allowed.items) }
{
    let mut allowed = Vec::new(alloc);
    for event in &parts.events {
        allowed.push(!event.hidden)?;
    }
    Ok(allowed)
}

/// The rows of lines.
pub(crate) fn rows_of(
    alloc: Global,
    parts: &GtsParts,
    allowed: &[bool],
    chains: &[Chain],
) -> Result<Vec<Row>, Memory>
    requires sound { IsSound parts.now }
    requires known { HaveKnownWays parts.now chains.now }
    requires allowed { length allowed.now ≡ length parts.now.events.items }
    ensures { (dropped : List ℕ) → AreOpenEvents parts.now dropped allowed.now
        → IfOk result (λ rows. AreLineRows parts.now dropped chains.now rows.items) }
{
    let mut rows = Vec::new(alloc);
    for chain in chains {
        let row = row_of(alloc, parts, allowed, &chain.ways)?;
        rows.push(row)?;
    }
    Ok(rows)
}

// The row of a line.
fn row_of(alloc: Global, parts: &GtsParts, allowed: &[bool], ways: &[WayId]) -> Result<Row, Memory>
    requires sound { IsSound parts.now }
    requires known { AreKnownWays parts.now ways.now }
    requires allowed { length allowed.now ≡ length parts.now.events.items }
    ensures { (dropped : List ℕ) → AreOpenEvents parts.now dropped allowed.now
        → IfOk result (λ row. IsRow parts.now dropped (chain_labels parts.now ways.now) row) }
{
    let mut row = empty_row(alloc, parts.events.len())?;
    for way in ways {
        let event = parts.ways[way.n as usize].event.n;
        add(&mut row, allowed, event);
    }
    Ok(row)
}

/// A row over so many events with none of them.
pub(crate) fn empty_row(alloc: Global, count: usize) -> Result<Row, Memory>
    requires { count < 2 ^ 32 }
    ensures long { IfOk result (λ row. length row.words.items ≡ words_for count) }
    ensures none { IfOk result (λ row. (n : ℕ) → IsSet row.words.items n → ⊥) }
    ensures fit { IfOk result (λ row. IsTrue row.fit) }
{
    let len = (count + (WORD_BITS - 1)) / WORD_BITS;
    let words = vec![in alloc; 0u64; len]?;
    Ok(Row { words, fit: true })
}

// Adds an event to a row.
fn add(row: &mut Row, allowed: &[bool], event: u32)
    requires inside { event / 64 < length row.old.words.items }
    requires allowed { event < length allowed.now }
    ensures long { length row.new.words.items ≡ length row.old.words.items }
    ensures bits { (n : ℕ) → IsSet row.new.words.items n
        ↔ (IsSet row.old.words.items n ⊎ (n ≡ event)) }
    ensures fit { (fresh : Bool) → IsAnswer fresh
        (IsFreshEvent allowed.now row.old.words.items event)
        → row.new.fit ≡ (row.old.fit && fresh) }
{
    row.fit &= is_fresh(&row.words, allowed, event);
    set(&mut row.words, event);
}

// Whether the event is open, and not in the row.
fn is_fresh(row: &[u64], allowed: &[bool], event: u32) -> bool
    requires { event < length allowed.now }
    ensures { IsAnswer result (IsFreshEvent allowed.now row.now event) }
{
    if has(row, event) {
        false
    } else {
        allowed[event as usize]
    }
}

/// Whether each bit that is set in the first row is set in the second.
pub(crate) fn is_within(small: &[u64], big: &[u64]) -> bool
    requires { length small.now ≡ length big.now }
    ensures { IsAnswer result ((n : ℕ) → IsSet small.now n → IsSet big.now n) }
{
    covers(big, small)
}
