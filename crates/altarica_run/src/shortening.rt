//! The text of `modules`.

ghost use Rattle.std.specs.Prelude.{◌≡◌, None};
ghost use Rattle.gate_modules.specs.ModulesInside.{AreRanges};
ghost use Rattle.module_text.specs.Ranges.{AreRangesOf};
ghost use Rattle.run_words.specs.declared.jobs.Asked.{Asked};
ghost use Rattle.run_words.specs.declared.verbs.Verb.TheVariants.{Modules as ModulesAsked};
ghost use Rattle.job_stages.specs.Passing.{IsDrawnFor};
ghost use Rattle.job_stages.specs.Stages.{Ready};
ghost use Rattle.job_stages.specs.Telling.{IsWritten, status_printed};
ghost use Rattle.job_stages.specs.Tells.{Tells};

use ar_io::Sink;
use cut_text::PrintFault;
use gate_diagrams::{Drawn, Family};
use gate_modules::{Range, shorten};
use gts_core::Gts;
use gts_core::laws::lawful_systems;
use job_stages::Status;
use mode_trees::Forest;
use module_text::laws::modules_of_the_source;
use module_text::print_modules;
use std::alloc::Global;
use table_laws::drawn_sets;
use zdd_nodes::store_laws;

/// Writes the modules of the cuts, and the cuts in short.
pub(crate) fn write_modules<K: Sink>(
    alloc: Global,
    system: &Gts,
    forest: &Forest,
    ranges: &[Range],
    family: &Family,
    out: &mut K,
) -> Result<Status, PrintFault>
    requires ranges { AreRanges ranges.now }
    requires drawn { (asked : Asked) × (w : Ready)
        × IsDrawnFor asked w system.now forest.now (Drawn.Cuts family.now) }
    ensures { (asked : Asked) (w : Ready)
        → IsDrawnFor asked w system.now forest.now (Drawn.Cuts family.now)
        → AreRangesOf w.source.declarations.model w.source.declarations.units ranges.now
        → asked.job.command ≡ ModulesAsked → w.order ≡ None
        → IsWritten (Tells asked w) (K.state out.old) (K.state out.new) (status_printed result) }
{
    // What is drawn are the cuts, what they are in short is so of the source's, and what is stored has
    // room for their sections.
    lawful_systems();
    drawn_sets();
    modules_of_the_source();
    store_laws();
    let _sound_parts = system.parts();
    let _sound_store = family.store.len();
    let short = shorten(alloc, family, ranges)?;
    print_modules(alloc, system, forest, &short, out)?;
    Ok(Status::Done)
}
