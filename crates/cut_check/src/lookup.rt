//! The sets of the events of lines, to look sets up in.

ghost use Rattle.std.specs.Prelude.{◌≡◌, ◌<◌, ◌/◌, ◌↔◌, ℕ, List, length, IfOk};
ghost use Rattle.ar_base.specs.Lists.{Stands, IsOneOf};
ghost use Rattle.ar_meaning.specs.Found.{IsAnswer};
ghost use Rattle.ar_meaning.specs.Runs.{Label};
ghost use Rattle.flow_blocks.specs.Bits.{IsSet};
ghost use Rattle.gts_core.specs.declared.system.GtsParts.{GtsParts as TheParts};
ghost use Rattle.job_inputs.specs.Chains.{HaveKnownWays};
ghost use Rattle.cut_check.specs.Flat.{chain_lines, flat_event_numbers};
ghost use Rattle.cut_check.specs.LineSets.{AreLineSets, HasEqualRows};
ghost use Rattle.cut_check.specs.Rows.{HaveBits};
ghost use Rattle.cut_check.specs.Verdicts.{IsListed};
ghost use Rattle.cut_check.specs.declared.rows.Row.{Row as TheRow};

use crate::rows::{Row, empty_row, is_within, open_events, rows_of};
use ar_base::{EventId, Memory};
use gts_core::{Chain, Gts};
use lane_rows::{has, set};
use std::alloc::Global;

/// The events of each line as a row of bits, and room for the row of a set that is looked up.
#[derive(Drop)]
pub struct LineSets {
    rows: Vec<Row>,
    asked: Vec<u64>,
}

/// The sets of the events of these lines. The error is want of memory.
pub fn line_sets(alloc: Global, gts: &Gts, chains: &[Chain]) -> Result<LineSets, Memory>
    requires { HaveKnownWays gts.now chains.now }
    ensures { IfOk result (λ sets. AreLineSets gts.now (chain_lines gts.now chains.now) sets) }
{
    let parts = gts.parts();
    let allowed = open_events(alloc, parts, &[])?;
    let rows = rows_of(alloc, parts, &allowed, chains)?;
    let asked = empty_row(alloc, parts.events.len())?.words;
    Ok(LineSets { rows, asked })
}

impl LineSets {
    /// Whether the events of one of the lines are exactly these, which are events of the lines'
    /// system. Takes no memory. Each line takes a comparison of two rows, which ends at the first
    /// event of the line that is not among these.
    pub fn has(&mut self, events: &[EventId]) -> bool
        requires { HasEqualRows self.old (flat_event_numbers events.now) }
        ensures same { (p : TheParts) (lines : List (List Label)) → AreLineSets p lines self.old
            → AreLineSets p lines self.new }
        ensures answer { (p : TheParts) (lines : List (List Label)) → AreLineSets p lines self.old
            → IsAnswer result (IsListed lines (flat_event_numbers events.now)) }
    {
        put_events(&mut self.asked, events);
        is_any(&self.rows, &self.asked, events)
    }
}

// Makes a row that of these events.
fn put_events(row: &mut [u64], events: &[EventId])
    requires { (n : ℕ) → IsOneOf (flat_event_numbers events.now) n → n / 64 < length row.old }
    ensures { (n : ℕ) → IsSet row.new n ↔ IsOneOf (flat_event_numbers events.now) n }
{
    clear(row);
    for event in events {
        set(row, event.n);
    }
}

// Takes all bits out of a row.
fn clear(row: &mut [u64])
    ensures { (n : ℕ) → IsSet row.new n → ⊥ }
{
    row.fill(0);
}

// Whether one of the rows is that of these events.
fn is_any(rows: &[Row], asked: &[u64], events: &[EventId]) -> bool
    requires { (k : ℕ) (r : TheRow) → Stands rows.now k r
        → length r.words.items ≡ length asked.now }
    ensures { (lines : List (List Label)) → HaveBits lines rows.now
        → ((n : ℕ) → IsSet asked.now n ↔ IsOneOf (flat_event_numbers events.now) n)
        → IsAnswer result (IsListed lines (flat_event_numbers events.now)) }
{
    for row in rows {
        let words: &[u64] = &row.words;
        if is_within(words, asked) && has_all_bits(words, events) {
            return true;
        }
    }
    false
}

// Whether a row has the bit of each of these events.
fn has_all_bits(row: &[u64], events: &[EventId]) -> bool
    ensures { IsAnswer result ((n : ℕ) → IsOneOf (flat_event_numbers events.now) n → IsSet row.now n) }
{
    for event in events {
        if !has(row, event.n) {
            return false;
        }
    }
    true
}
