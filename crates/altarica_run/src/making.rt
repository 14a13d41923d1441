//! The text of `make`.

ghost use Rattle.std.specs.Prelude.{◌≡◌, ◌++◌, decimal, length, None};
ghost use Rattle.ar_base.specs.Texts.{line};
ghost use Rattle.ar_io.specs.Handing.{Writes};
ghost use Rattle.mode_trees.specs.declared.forests.Forest.{Forest};
ghost use Rattle.run_words.specs.declared.jobs.Asked.{Asked};
ghost use Rattle.run_words.specs.declared.verbs.Verb.TheVariants.{Make as MakeAsked};
ghost use Rattle.job_stages.specs.Passing.{IsDrawnFor};
ghost use Rattle.job_stages.specs.Stages.{Ready};
ghost use Rattle.job_stages.specs.Telling.{IsWritten, status_printed};
ghost use Rattle.job_stages.specs.Tells.{make_lines, Tells};

use ar_io::{Sink, SinkFailed, write_text, write_wide};
use cut_text::PrintFault;
use gate_diagrams::{Drawn, Family};
use gts_core::laws::lawful_systems;
use gts_core::{Gts, GtsParts};
use job_stages::Status;
use min_cuts::{Counted, counts};
use std::alloc::Global;
use table_laws::drawn_sets;
use zdd_nodes::store_laws;

/// Writes how large the made model of so many components is, how many cuts it has, and how large the
/// largest is.
pub(crate) fn write_made<K: Sink>(
    alloc: Global,
    system: &Gts,
    number: u32,
    family: &Family,
    out: &mut K,
) -> Result<Status, PrintFault>
    requires drawn { (asked : Asked) × (w : Ready) × (forest : Forest)
        × IsDrawnFor asked w system.now forest (Drawn.Cuts family.now) }
    ensures { (asked : Asked) (w : Ready) (forest : Forest)
        → IsDrawnFor asked w system.now forest (Drawn.Cuts family.now)
        → asked.job.command ≡ MakeAsked → w.order ≡ None → asked.job.number ≡ number
        → IsWritten (Tells asked w) (K.state out.old) (K.state out.new) (status_printed result) }
{
    // What is drawn are the cuts, and what is stored has room for their sections.
    lawful_systems();
    drawn_sets();
    store_laws();
    let parts = system.parts();
    let _sound_store = family.store.len();
    let counted = counts(alloc, family)?;
    put_made(out, number, parts, counted)?;
    Ok(Status::Done)
}

// Writes the numbers of components, units, events and cuts, and the size of the largest cut.
fn put_made<K: Sink>(
    out: &mut K,
    number: u32,
    parts: &GtsParts,
    counted: Counted,
) -> Result<(), SinkFailed>
    ensures { Writes (K.state out.old) (K.state out.new)
        (make_lines number (length parts.now.units.items) (length parts.now.events.items)
        counted.sets counted.largest) result }
{
    put_line(out, "make ", u128::from(number))?;
    put_line(out, "units ", parts.units.len() as u128)?;
    put_line(out, "events ", parts.events.len() as u128)?;
    put_line(out, "cuts ", counted.sets)?;
    put_line(out, "largest ", u128::from(counted.largest))
}

// Writes a line with a number.
fn put_line<K: Sink>(out: &mut K, named: &str, number: u128) -> Result<(), SinkFailed>
    ensures { Writes (K.state out.old) (K.state out.new) (line (named.now ++ decimal number))
        result }
{
    write_text(out, named)?;
    write_wide(out, number)?;
    write_text(out, "\n")
}
