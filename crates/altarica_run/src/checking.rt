//! The text of `checkcuts`.

ghost use Rattle.std.specs.Prelude.{◌≡◌, ℕ, IfOk};
ghost use Rattle.ar_base.specs.Lists.{Stands};
ghost use Rattle.ar_meaning.specs.Systems.{System};
ghost use Rattle.cut_check.specs.Flat.{AreVerdicts};
ghost use Rattle.gts_core.specs.View.{Views, numbered};
ghost use Rattle.gts_core.specs.declared.system.Observer.{Observer};
ghost use Rattle.job_inputs.specs.Chains.{HaveKnownWays};
ghost use Rattle.run_words.specs.declared.jobs.Asked.{Asked};
ghost use Rattle.run_words.specs.declared.verbs.Verb.TheVariants.{CheckCuts as CheckAsked};
ghost use Rattle.job_stages.specs.Passing.{IsRequested, AreLines, IsDrawnFor};
ghost use Rattle.job_stages.specs.Stages.{Ready};
ghost use Rattle.job_stages.specs.Telling.{IsWritten, status_printed};
ghost use Rattle.job_stages.specs.Tells.{Tells};

use ar_base::Memory;
use ar_io::Sink;
use check_text::laws::check_of_the_source;
use check_text::{CheckedList, print_check, short_chains};
use cut_check::{Verdict, verdicts};
use cut_text::PrintFault;
use cut_text::laws::edges_of_forests;
use gate_diagrams::{Drawn, Family};
use gts_core::Chain;
use gts_core::laws::lawful_systems;
use job_stages::{Request, Status};
use min_cuts::Lister;
use mode_trees::Forest;
use std::alloc::Global;
use table_laws::{drawn_sets, gate_table_laws};
use zdd_nodes::store_laws;

/// Writes what is to be said of each line of the list, and the cuts that it lacks. Where the cuts of at most so many events are
/// asked for, lines of more labels are set aside.
pub(crate) fn write_check<K: Sink>(
    alloc: Global,
    request: &Request,
    chains: &[Chain],
    forest: &Forest,
    family: Family,
    order: Option<u32>,
    out: &mut K,
) -> Result<Status, PrintFault>
    requires drawn { (asked : Asked) × (w : Ready) × IsRequested w request.now
        × AreLines request.now.system w.lines chains.now
        × IsDrawnFor asked w request.now.system forest.now (Drawn.Cuts family) }
    ensures { (asked : Asked) (w : Ready) → IsRequested w request.now
        → AreLines request.now.system w.lines chains.now
        → IsDrawnFor asked w request.now.system forest.now (Drawn.Cuts family)
        → asked.job.command ≡ CheckAsked → w.order ≡ order
        → IsWritten (Tells asked w) (K.state out.old) (K.state out.new) (status_printed result) }
{
    // What is drawn are the cuts, what is said of the lines and the cuts is said of the source's, and
    // what is stored has room for their sections.
    lawful_systems();
    gate_table_laws();
    drawn_sets();
    edges_of_forests();
    check_of_the_source();
    store_laws();
    let system = &request.system;
    let _sound_parts = system.parts();
    let _sound_store = family.store.len();
    let short = short_chains(alloc, order, chains)?;
    let said = said_of_lines(alloc, request, &short)?;
    let lister = Lister::open(alloc, family, forest)?;
    let list = CheckedList {
        order,
        chains,
        short: &short,
        verdicts: &said,
    };
    print_check(alloc, system, forest, lister, &list, out)?;
    Ok(Status::Done)
}

// What is to be said of each of these lines.
fn said_of_lines(alloc: Global, request: &Request, chains: &[Chain]) -> Result<Vec<Verdict>, Memory>
    requires { (w : Ready) × IsRequested w request.now
        × HaveKnownWays request.now.system chains.now }
    ensures { (w : Ready) → IsRequested w request.now
        → (flat : System ℕ) → Views request.now.system flat
        → (o : Observer) → Stands request.now.system.observers.items request.now.wanted.observer o
        → IfOk result (λ said. AreVerdicts request.now.system flat w.dropped (numbered o.value)
        request.now.wanted.value chains.now said.items) }
{
    verdicts(
        alloc,
        &request.system,
        &request.dropped,
        request.wanted.observer,
        request.wanted.value,
        chains,
    )
}
