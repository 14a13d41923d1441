//! The lines of sets of events.

ghost use Rattle.std.specs.Prelude.{◌≡◌, ℕ, List, ◌∷◌, Some, true, false, codes, reverse};
ghost use Rattle.ar_base.specs.Texts.{separated};
ghost use Rattle.ar_io.specs.Handing.{Writes};
ghost use Rattle.ar_meaning.specs.Flows.{FlowFault as MetFault};
ghost use Rattle.ar_meaning.specs.Systems.{System};
ghost use Rattle.ar_meaning.specs.TraceText.{flow_fault_text};
ghost use Rattle.ar_firing.specs.Cuts.{Conflicts};
ghost use Rattle.flow_propagate.specs.Answers.{fault_of};
ghost use Rattle.gts_core.specs.View.{Views};
ghost use Rattle.gts_flatten.specs.Flat.{naming_of_parts};
ghost use Rattle.mode_trees.specs.Ways.{OwnTheirWays};
ghost use Rattle.text_pieces.specs.WayLabels.{way_label};
ghost use Rattle.text_pieces.specs.Faults.{IsInRange};
ghost use Rattle.min_cuts.specs.Kept.{numbers_of_set};
ghost use Rattle.cut_text.specs.Answers.{Prints};
ghost use Rattle.cut_text.specs.Printed.{forest_edges, labels_in, cuts_text, conflict_text};
ghost use Rattle.cut_text.specs.Printed.{HaveOneWay, AreOfEdges};
ghost use Rattle.cut_text.specs.Texts.{braced, count_line, fault_line, order_end};
ghost use Rattle.cut_text.specs.Tables.{texts_at, lines_at, way_at, HasWay, HaveWays, AllHaveWays};

use crate::conflicts::fault_met;
use crate::faults::PrintFault;
use crate::tables::event_ways;
use ar_base::{EventId, WayId};
use ar_io::{Sink, SinkFailed, write_number, write_text, write_wide};
use flow_propagate::FlowFault;
use gts_core::Gts;
use min_cuts::Lister;
use mode_trees::Forest;
use std::alloc::Global;
use text_pieces::{print_flow_fault, print_label};

/// Writes the text of a listing of cuts: for each set of the lister, in its order, a line `{a, b}`
/// with the labels of its events' edges as they stand in the set, and last `count N` with the number
/// of cuts and, where they are those of at most so many events, up to which order. Memory is taken before anything is
/// written.
pub fn print_cuts<K: Sink>(
    alloc: Global,
    gts: &Gts,
    forest: &Forest,
    mut lister: Lister,
    order: Option<u32>,
    count: u128,
    out: &mut K,
) -> Result<(), PrintFault>
    requires own { OwnTheirWays gts.now forest.now.trees.items }
    requires one_way { HaveOneWay (forest_edges forest.now.trees.items) }
    requires known { AreOfEdges (forest_edges forest.now.trees.items) lister }
    ensures { Prints (K.state out.old) (K.state out.new)
        (cuts_text gts.now (forest_edges forest.now.trees.items) order lister count) result }
{
    let ways = event_ways(alloc, gts, forest)?;
    set_lines(out, gts, &ways, &mut lister)?;
    print_count(out, order, count)?;
    Ok(())
}

/// Writes the text of the conflict of the lister's first set, `fault: {a, b}: F`: the labels of its
/// events' edges as they stand in the set, and the flow fault that the last of them meets where they
/// are fired in this order, or, where the set is empty, that of the start. The lister is to have such
/// a set. Memory is taken before anything is written.
pub fn print_conflict<K: Sink>(
    alloc: Global,
    gts: &Gts,
    forest: &Forest,
    mut lister: Lister,
    out: &mut K,
) -> Result<(), PrintFault>
    requires own { OwnTheirWays gts.now forest.now.trees.items }
    requires one_way { HaveOneWay (forest_edges forest.now.trees.items) }
    requires known { AreOfEdges (forest_edges forest.now.trees.items) lister }
    ensures { (system : System ℕ) → Views gts.now system → (dropped events : List ℕ)
        (later : List (List ℕ)) (fault : MetFault) → lister ≡ events ∷ later
        → Conflicts system dropped
        (reverse (labels_in gts.now (forest_edges forest.now.trees.items) events)) fault
        → Prints (K.state out.old) (K.state out.new)
        (conflict_text gts.now (forest_edges forest.now.trees.items) events fault) result }
{
    let ways = event_ways(alloc, gts, forest)?;
    // There is a first set, and it meets a fault: with none there would be nothing to write.
    let Some(events) = lister.next() else {
        return Ok(());
    };
    let Some(fault) = fault_met(alloc, gts, &ways, events)? else {
        return Ok(());
    };
    fault_line(out, gts, &ways, events, fault)?;
    Ok(())
}

// The lines of the sets that are left.
fn set_lines<K: Sink>(
    out: &mut K,
    gts: &Gts,
    ways: &[WayId],
    lister: &mut Lister,
) -> Result<(), SinkFailed>
    requires { AllHaveWays gts.now ways.now lister.old }
    ensures { Writes (K.state out.old) (K.state out.new)
        (lines_at gts.now ways.now lister.old) result }
{
    while let Some(events) = lister.next() {
        write_set(out, gts, ways, events)?;
        write_text(out, "\n")?;
    }
    Ok(())
}

// The line of a conflict.
fn fault_line<K: Sink>(
    out: &mut K,
    gts: &Gts,
    ways: &[WayId],
    events: &[EventId],
    fault: FlowFault,
) -> Result<(), SinkFailed>
    requires ways { HaveWays gts.now ways.now (numbers_of_set events.now) }
    requires range { IsInRange gts.now fault }
    ensures { Writes (K.state out.old) (K.state out.new)
        (fault_line (braced (texts_at gts.now ways.now (numbers_of_set events.now)))
        (flow_fault_text (naming_of_parts gts.now) (fault_of fault))) result }
{
    write_text(out, "fault: ")?;
    write_set(out, gts, ways, events)?;
    write_text(out, ": ")?;
    print_flow_fault(gts, fault, out)?;
    write_text(out, "\n")
}

// How many sets there are, and up to which order.
fn print_count<K: Sink>(out: &mut K, order: Option<u32>, count: u128) -> Result<(), SinkFailed>
    ensures { Writes (K.state out.old) (K.state out.new) (count_line order count) result }
{
    write_text(out, "count ")?;
    write_wide(out, count)?;
    write_order_end(out, order)
}

/// Writes the end of a line about cuts: ` up to order K` and the line's end where those of at most K events are asked for,
/// else the line's end alone.
pub fn write_order_end<K: Sink>(out: &mut K, order: Option<u32>) -> Result<(), SinkFailed>
    ensures { Writes (K.state out.old) (K.state out.new) (order_end order) result }
{
    match order {
        Some(order) => put_order(out, order),
        None => write_text(out, "\n"),
    }
}

// Writes the end of a line about the cuts of at most so many events.
fn put_order<K: Sink>(out: &mut K, order: u32) -> Result<(), SinkFailed>
    ensures { Writes (K.state out.old) (K.state out.new) (order_end (Some order)) result }
{
    write_text(out, " up to order ")?;
    write_number(out, order)?;
    write_text(out, "\n")
}

/// Writes the labels of a set in braces, as they stand in it: `{a, b}`.
pub fn write_set<K: Sink>(
    out: &mut K,
    gts: &Gts,
    ways: &[WayId],
    events: &[EventId],
) -> Result<(), SinkFailed>
    requires { HaveWays gts.now ways.now (numbers_of_set events.now) }
    ensures { Writes (K.state out.old) (K.state out.new)
        (braced (texts_at gts.now ways.now (numbers_of_set events.now))) result }
{
    write_text(out, "{")?;
    labels(out, gts, ways, events)?;
    write_text(out, "}")
}

// The labels of these events, with commas between them.
fn labels<K: Sink>(
    out: &mut K,
    gts: &Gts,
    ways: &[WayId],
    events: &[EventId],
) -> Result<(), SinkFailed>
    requires { HaveWays gts.now ways.now (numbers_of_set events.now) }
    ensures { Writes (K.state out.old) (K.state out.new)
        (separated true (codes ", ") (texts_at gts.now ways.now (numbers_of_set events.now))) result }
{
    let Some((first, others)) = events.split_first() else {
        return Ok(());
    };
    label(out, gts, ways, *first)?;
    more_labels(out, gts, ways, others)
}

// Further labels.
fn more_labels<K: Sink>(
    out: &mut K,
    gts: &Gts,
    ways: &[WayId],
    events: &[EventId],
) -> Result<(), SinkFailed>
    requires { HaveWays gts.now ways.now (numbers_of_set events.now) }
    ensures { Writes (K.state out.old) (K.state out.new)
        (separated false (codes ", ") (texts_at gts.now ways.now (numbers_of_set events.now))) result }
{
    for event in events {
        write_text(out, ", ")?;
        label(out, gts, ways, *event)?;
    }
    Ok(())
}

// The label of an event's edge.
fn label<K: Sink>(out: &mut K, gts: &Gts, ways: &[WayId], event: EventId) -> Result<(), SinkFailed>
    requires { HasWay gts.now ways.now event.n }
    ensures { Writes (K.state out.old) (K.state out.new)
        (way_label gts.now (way_at ways.now event.n)) result }
{
    print_label(gts, ways[event.n as usize], out)
}
