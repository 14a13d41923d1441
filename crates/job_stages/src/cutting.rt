//! The diagrams of a gate table, and the texts of `cuts`, of a conflict, and of too few nodes.

ghost use Rattle.std.specs.Prelude.{◌≡◌, ◌≤◌, true};
ghost use Rattle.ar_io.specs.Handing.{Writes};
ghost use Rattle.gts_core.specs.declared.system.GtsParts.{GtsParts};
ghost use Rattle.run_words.specs.declared.jobs.Asked.{Asked};
ghost use Rattle.run_words.specs.declared.verbs.Verb.TheVariants.{Cuts as CutsAsked};
ghost use Rattle.job_stages.specs.Passing.{HasGates, IsDrawnFor, AnswersDrawn};
ghost use Rattle.job_stages.specs.Stages.{Ready, lists_cuts};
ghost use Rattle.job_stages.specs.Telling.{IsWritten, status_printed};
ghost use Rattle.job_stages.specs.Tells.{MayNeedMore, nodes_line, Tells};

use crate::status::Status;
use crate::tabling::GateTable;
use ar_io::{Sink, SinkFailed, write_number, write_text};
use cut_text::laws::{cuts_of_the_source, edges_of_forests};
use cut_text::{PrintFault, print_conflict, print_cuts};
use gate_diagrams::{Drawn, Family, diagrams_up_to};
use gts_core::Gts;
use gts_core::laws::lawful_systems;
use min_cuts::{Lister, counts};
use mode_trees::Forest;
use std::alloc::Global;
use table_laws::{drawn_sets, gate_table_laws};
use zdd_nodes::{NodeFault, store_laws};

/// Draws the conflict sets of a gate table or, where there are none, the cuts of its value, all or those of at most so many
/// events, with at most so many nodes.
pub fn draw(
    alloc: Global,
    table: &GateTable,
    forest: &Forest,
    order: Option<u32>,
    nodes: u32,
) -> Result<Drawn, NodeFault>
    requires analysed { (w : Ready) × (p : GtsParts) × HasGates w p forest.now table.now }
    requires nodes { nodes ≤ 16777216 }
    ensures { (asked : Asked) (w : Ready) (p : GtsParts) → HasGates w p forest.now table.now
        → lists_cuts asked.job.command ≡ true → w.order ≡ order → asked.job.nodes ≡ nodes
        → AnswersDrawn asked w p forest.now result }
{
    // The table's gates are in order, the trees of a static system's forest are trees, and which
    // nodes may be needed does not rest on the numbers of ways.
    gate_table_laws();
    edges_of_forests();
    drawn_sets();
    diagrams_up_to(alloc, &table.equations, forest, order, nodes)
}

/// Writes the cuts, each in an order that replays, and how many there are, and up to which order.
pub fn write_cuts<K: Sink>(
    alloc: Global,
    system: &Gts,
    forest: &Forest,
    family: Family,
    order: Option<u32>,
    out: &mut K,
) -> Result<Status, PrintFault>
    requires drawn { (asked : Asked) × (w : Ready)
        × IsDrawnFor asked w system.now forest.now (Drawn.Cuts family) }
    ensures { (asked : Asked) (w : Ready)
        → IsDrawnFor asked w system.now forest.now (Drawn.Cuts family)
        → asked.job.command ≡ CutsAsked → w.order ≡ order
        → IsWritten (Tells asked w) (K.state out.old) (K.state out.new) (status_printed result) }
{
    // What is drawn are the cuts, they have the text of the source's, each line of it replays, and
    // what is stored has room for their sections.
    lawful_systems();
    gate_table_laws();
    drawn_sets();
    edges_of_forests();
    cuts_of_the_source();
    store_laws();
    let _sound_parts = system.parts();
    let _sound_store = family.store.len();
    let counted = counts(alloc, &family)?;
    let lister = Lister::open(alloc, family, forest)?;
    print_cuts(alloc, system, forest, lister, order, counted.sets, out)?;
    Ok(Status::Done)
}

/// Writes the first of the conflict sets.
pub fn write_conflict<K: Sink>(
    alloc: Global,
    system: &Gts,
    forest: &Forest,
    family: Family,
    out: &mut K,
) -> Result<Status, PrintFault>
    requires drawn { (asked : Asked) × (w : Ready)
        × IsDrawnFor asked w system.now forest.now (Drawn.Conflicts family) }
    ensures { (asked : Asked) (w : Ready)
        → IsDrawnFor asked w system.now forest.now (Drawn.Conflicts family)
        → IsWritten (Tells asked w) (K.state out.old) (K.state out.new) (status_printed result) }
{
    // What is drawn are the conflict sets, and the first of them has the text of the source's
    // conflict.
    lawful_systems();
    gate_table_laws();
    drawn_sets();
    edges_of_forests();
    cuts_of_the_source();
    let _sound_parts = system.parts();
    let lister = Lister::open(alloc, family, forest)?;
    print_conflict(alloc, system, forest, lister, out)?;
    Ok(Status::Fault)
}

/// Writes that the diagrams need more nodes than so many, where they do.
pub fn write_nodes<K: Sink>(fault: NodeFault, nodes: u32, out: &mut K) -> Result<Status, PrintFault>
    ensures { (asked : Asked) (w : Ready) → asked.job.nodes ≡ nodes → lists_cuts asked.job.command ≡ true
        → (fault ≡ NodeFault.Full → MayNeedMore w nodes)
        → IsWritten (Tells asked w) (K.state out.old) (K.state out.new) (status_printed result) }
{
    match fault {
        NodeFault::Full => {
            put_nodes(out, nodes)?;
            Ok(Status::Nodes)
        }
        NodeFault::Memory => Err(PrintFault::Memory),
    }
}

// Writes the line of too few nodes.
fn put_nodes<K: Sink>(out: &mut K, nodes: u32) -> Result<(), SinkFailed>
    ensures { Writes (K.state out.old) (K.state out.new) (nodes_line nodes) result }
{
    write_text(out, "nodes: ")?;
    write_number(out, nodes)?;
    write_text(out, "\n")
}
