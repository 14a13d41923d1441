//! The verdicts of lines.

ghost use Rattle.std.specs.Prelude.{◌≡◌, ◌<◌, ℕ, List, length, IfOk, IfSome, MatchOption};
ghost use Rattle.ar_base.specs.Lists.{Stands};
ghost use Rattle.ar_meaning.specs.Found.{IsAnswer};
ghost use Rattle.ar_meaning.specs.Runs.{Label};
ghost use Rattle.ar_meaning.specs.Systems.{System};
ghost use Rattle.domains.specs.declared.Value.{Value as TheValue};
ghost use Rattle.gts_core.specs.View.{Views, numbered};
ghost use Rattle.gts_core.specs.declared.system.Observer.{Observer};
ghost use Rattle.job_inputs.specs.Chains.{HaveKnownWays};
ghost use Rattle.typed_expr.specs.declared.expr.Expr.{Expr as TheExpr};
ghost use Rattle.job_inputs.specs.NamingInside.{AreEventsOf};
ghost use Rattle.cut_check.specs.Flat.{chain_lines, flat_event_numbers, AreVerdicts, IsVerdict};
ghost use Rattle.cut_check.specs.Rows.{HaveBits, AreWide};
ghost use Rattle.cut_check.specs.Truths.{AreTruths};
ghost use Rattle.cut_check.specs.Verdicts.{ContainsLine, HoldsLine};

use crate::firing::true_lines;
use crate::rows::{Row, is_within, open_events, rows_of};
use ar_base::{EventId, Memory};
use domains::Value;
use gts_core::{Chain, Gts};
use std::alloc::Global;

/// What is said of a line of a list of cuts.
#[derive(Clone, Copy)]
pub enum Verdict {
    /// It is true and holds no other line.
    Good,
    /// It is not true: some label is not that of a visible event that is not dropped, an event
    /// stands twice, the run meets a fault, or it does not end with the wanted value.
    Fails,
    /// It is true and holds the line of this number.
    Holds(u32),
}

/// A verdict for each line, in order. A line is true where its labels are an order of their events,
/// each once, that ends with the wanted value of the observer. It holds the least other line whose
/// events are all among its own, and which stands earlier where the events are the same. The error
/// is want of memory.
pub fn verdicts(
    alloc: Global,
    gts: &Gts,
    dropped: &[EventId],
    observer: u32,
    wanted: Value,
    chains: &[Chain],
) -> Result<Vec<Verdict>, Memory>
    requires dropped { AreEventsOf gts.now dropped.now }
    requires observer { observer < length gts.now.observers.items }
    requires known { HaveKnownWays gts.now chains.now }
    ensures { (system : System ℕ) → Views gts.now system
        → (o : Observer) → Stands gts.now.observers.items observer o
        → IfOk result (λ all. AreVerdicts gts.now system (flat_event_numbers dropped.now) (numbered o.value)
        wanted chains.now all.items) }
{
    let parts = gts.parts();
    let allowed = open_events(alloc, parts, dropped)?;
    let rows = rows_of(alloc, parts, &allowed, chains)?;
    let observer = &parts.observers[observer as usize];
    let truths = true_lines(alloc, gts, observer, wanted, chains, &rows)?;
    let mut all = Vec::new(alloc);
    for n in 0..chains.len() {
        all.push(verdict_of(chains, &rows, &truths, n))?;
    }
    Ok(all)
}

// The verdict of line n.
fn verdict_of(chains: &[Chain], rows: &[Row], truths: &[bool], n: usize) -> Verdict
    requires inside { n < length chains.now }
    requires rows { length rows.now ≡ length chains.now }
    requires truths { length truths.now ≡ length chains.now }
    requires wide { AreWide rows.now }
    ensures { (system : System ℕ) (dropped : List ℕ) (observer : TheExpr ℕ) (wanted : TheValue)
        (lines : List (List Label))
        → HaveBits lines rows.now → AreTruths system dropped observer wanted lines truths.now
        → IsVerdict system dropped observer wanted lines chains.now n result }
{
    if !truths[n] {
        return Verdict::Fails;
    }
    match held(rows, n) {
        Some(k) => Verdict::Holds(chains[k].line),
        None => Verdict::Good,
    }
}

// The least line that line n holds.
fn held(rows: &[Row], n: usize) -> Option<usize>
    requires inside { n < length rows.now }
    requires wide { AreWide rows.now }
    ensures held { (lines : List (List Label)) → HaveBits lines rows.now
        → MatchOption result ((k : ℕ) → ContainsLine lines n k → ⊥) (λ k. HoldsLine lines n k) }
    ensures inside { IfSome result (λ k. k < length rows.now) }
{
    for k in 0..rows.len() {
        if may_hold(rows, n, k) {
            return Some(k);
        }
    }
    None
}

// Whether line n may hold line k.
fn may_hold(rows: &[Row], n: usize, k: usize) -> bool
    requires n { n < length rows.now }
    requires k { k < length rows.now }
    requires wide { AreWide rows.now }
    ensures { (lines : List (List Label)) → HaveBits lines rows.now
        → IsAnswer result (ContainsLine lines n k) }
{
    let line = &rows[n].words;
    let other = &rows[k].words;
    if !is_within(other, line) {
        return false;
    }
    k < n || !is_within(line, other)
}
