//! The lines of verdicts and of missing cuts.

ghost use Rattle.std.specs.Prelude.{◌≡◌, ◌&&◌, if◌then◌else◌, codes, List, OnOk};
ghost use Rattle.ar_io.specs.Handing.{Writes};
ghost use Rattle.ar_meaning.specs.Runs.{Label};
ghost use Rattle.mode_trees.specs.Ways.{OwnTheirWays};
ghost use Rattle.min_cuts.specs.Kept.{numbers_of_set};
ghost use Rattle.job_inputs.specs.Chains.{HaveKnownWays};
ghost use Rattle.cut_check.specs.LineSets.{AreLineSets, AreSomeLineSets, AreEventNumbers};
ghost use Rattle.cut_check.specs.LineSets.{HaveEventNumbers};
ghost use Rattle.cut_text.specs.Answers.{Prints};
ghost use Rattle.cut_text.specs.Printed.{forest_edges, HaveOneWay, AreOfEdges};
ghost use Rattle.cut_text.specs.Tables.{HaveWays, AllHaveWays};
ghost use Rattle.check_text.specs.Printed.{verdict_text, verdict_line, chain_line, verdict_lines, all_verdicts_good};
ghost use Rattle.check_text.specs.Printed.{listed_in, all_listed, missing_one, missing_at, text_of_check};
ghost use Rattle.check_text.specs.Texts.{above_line, later, last_line};

use crate::short::is_above;
use ar_base::{EventId, WayId};
use ar_io::{Sink, SinkFailed, write_number, write_text};
use cut_check::{LineSets, Verdict, line_sets};
use cut_text::{PrintFault, event_ways, write_order_end, write_set};
use gts_core::{Chain, Gts};
use min_cuts::Lister;
use mode_trees::Forest;
use std::alloc::Global;

/// A list of cuts and what its check found.
#[derive(Clone, Copy)]
pub struct CheckedList<'a> {
    /// The most events of the cuts that are meant, where a number is given: lines of more labels are above it.
    pub order: Option<u32>,
    /// The lines.
    pub chains: &'a [Chain],
    /// Those of the lines that are not above the order.
    pub short: &'a [Chain],
    /// The verdicts of these.
    pub verdicts: &'a [Verdict],
}

/// Writes the text of a check of a list of cuts: for each line of the list that it is above the order, or its verdict; then
/// `missing ` and the labels of each cut of the lister that no short line has, in its order; and last `yes`
/// where each short line is good and no cut is missing, else `no`. Memory is taken before anything is
/// written.
pub fn print_check<K: Sink>(
    alloc: Global,
    gts: &Gts,
    forest: &Forest,
    mut lister: Lister,
    list: &CheckedList<'_>,
    out: &mut K,
) -> Result<(), PrintFault>
    requires own { OwnTheirWays gts.now forest.now.trees.items }
    requires one_way { HaveOneWay (forest_edges forest.now.trees.items) }
    requires known { AreOfEdges (forest_edges forest.now.trees.items) lister }
    requires ways { HaveKnownWays gts.now list.now.short.now }
    ensures { Prints (K.state out.old) (K.state out.new)
        (text_of_check gts.now (forest_edges forest.now.trees.items) list.now.order list.now.chains.now
        list.now.short.now list.now.verdicts.now lister) result }
{
    let _sound_parts = gts.parts();
    let ways = event_ways(alloc, gts, forest)?;
    let mut sets = line_sets(alloc, gts, list.short)?;
    let good = all_good(list.verdicts);
    let mut whole = true;
    verdict_lines(out, list.order, list.chains, list.verdicts)?;
    missing_lines(out, gts, &ways, &mut sets, &mut lister, &mut whole)?;
    answer(out, list.order, both(good, whole))?;
    Ok(())
}

// Whether each verdict is good.
fn all_good(verdicts: &[Verdict]) -> bool
    ensures { result ≡ all_verdicts_good verdicts.now }
{
    for verdict in verdicts {
        match *verdict {
            Verdict::Good => {}
            _ => return false,
        }
    }
    true
}

// Whether both hold.
fn both(a: bool, b: bool) -> bool
    ensures { result ≡ (a && b) }
{
    a && b
}

// The last line.
fn answer<K: Sink>(out: &mut K, order: Option<u32>, right: bool) -> Result<(), SinkFailed>
    ensures { Writes (K.state out.old) (K.state out.new) (last_line order right) result }
{
    write_text(out, word(right))?;
    write_order_end(out, order)
}

// The word of an answer.
fn word(right: bool) -> &'static str
    ensures { result.now ≡ (if right then codes "yes" else codes "no") }
{
    if right { "yes" } else { "no" }
}

// The lines of verdicts, and of the lines above the order.
fn verdict_lines<K: Sink>(
    out: &mut K,
    order: Option<u32>,
    chains: &[Chain],
    verdicts: &[Verdict],
) -> Result<(), SinkFailed>
    ensures { Writes (K.state out.old) (K.state out.new)
        (verdict_lines order chains.now verdicts.now) result }
{
    let mut left = verdicts;
    for chain in chains {
        let above = is_above(order, chain.ways.len());
        chain_line(out, above, chain.line, left)?;
        left = later(above, left);
    }
    Ok(())
}

// What is left of the verdicts for the lines behind one.
fn later(above: bool, left: &[Verdict]) -> &[Verdict]
    ensures { result.now ≡ later above left.now }
{
    if above {
        return left;
    }
    match left.split_first() {
        Some((_, behind)) => behind,
        None => left,
    }
}

// The line of this number, which is above the order, or has the first verdict that is left.
fn chain_line<K: Sink>(
    out: &mut K,
    above: bool,
    number: u32,
    left: &[Verdict],
) -> Result<(), SinkFailed>
    ensures { Writes (K.state out.old) (K.state out.new) (chain_line above number left.now) result }
{
    if above {
        return above_line(out, number);
    }
    match left.first() {
        Some(verdict) => verdict_line(out, number, *verdict),
        None => write_text(out, ""),
    }
}

// The line of this number, which is above the order.
fn above_line<K: Sink>(out: &mut K, number: u32) -> Result<(), SinkFailed>
    ensures { Writes (K.state out.old) (K.state out.new) (above_line number) result }
{
    write_text(out, "line ")?;
    write_number(out, number)?;
    write_text(out, " above\n")
}

// The line of this number, with its verdict.
fn verdict_line<K: Sink>(out: &mut K, number: u32, verdict: Verdict) -> Result<(), SinkFailed>
    ensures { Writes (K.state out.old) (K.state out.new) (verdict_line number verdict) result }
{
    write_text(out, "line ")?;
    write_number(out, number)?;
    write_text(out, " ")?;
    said(out, verdict)?;
    write_text(out, "\n")
}

// What is said of a line.
fn said<K: Sink>(out: &mut K, verdict: Verdict) -> Result<(), SinkFailed>
    ensures { Writes (K.state out.old) (K.state out.new) (verdict_text verdict) result }
{
    match verdict {
        Verdict::Good => write_text(out, "good"),
        Verdict::Fails => write_text(out, "fails"),
        Verdict::Holds(line) => {
            write_text(out, "holds line ")?;
            write_number(out, line)
        }
    }
}

// The lines of those of the sets that are left that are not listed; whether there is none of them.
fn missing_lines<K: Sink>(
    out: &mut K,
    gts: &Gts,
    ways: &[WayId],
    sets: &mut LineSets,
    lister: &mut Lister,
    whole: &mut bool,
) -> Result<(), SinkFailed>
    requires ways { AllHaveWays gts.now ways.now lister.old }
    requires events { HaveEventNumbers gts.now lister.old }
    requires sets { AreSomeLineSets gts.now sets.old }
    ensures text { (lines : List (List Label)) → AreLineSets gts.now lines sets.old
        → Writes (K.state out.old) (K.state out.new) (missing_at gts.now ways.now lines lister.old)
        result }
    ensures whole { (lines : List (List Label)) → AreLineSets gts.now lines sets.old
        → OnOk result (whole.new ≡ (whole.old && all_listed lines lister.old)) }
{
    while let Some(events) = lister.next() {
        missing_line(out, gts, ways, sets, events, whole)?;
    }
    Ok(())
}

// The line of a set that is not listed; and that there is one.
fn missing_line<K: Sink>(
    out: &mut K,
    gts: &Gts,
    ways: &[WayId],
    sets: &mut LineSets,
    events: &[EventId],
    whole: &mut bool,
) -> Result<(), SinkFailed>
    requires ways { HaveWays gts.now ways.now (numbers_of_set events.now) }
    requires events { AreEventNumbers gts.now (numbers_of_set events.now) }
    requires sets { AreSomeLineSets gts.now sets.old }
    ensures same { (lines : List (List Label)) → AreLineSets gts.now lines sets.old
        → AreLineSets gts.now lines sets.new }
    ensures text { (lines : List (List Label)) → AreLineSets gts.now lines sets.old
        → Writes (K.state out.old) (K.state out.new)
        (missing_one gts.now ways.now lines (numbers_of_set events.now)) result }
    ensures whole { (lines : List (List Label)) → AreLineSets gts.now lines sets.old
        → OnOk result (whole.new ≡ (whole.old && listed_in lines (numbers_of_set events.now))) }
{
    if sets.has(events) {
        return write_text(out, "");
    }
    *whole = false;
    write_text(out, "missing ")?;
    write_set(out, gts, ways, events)?;
    write_text(out, "\n")
}
