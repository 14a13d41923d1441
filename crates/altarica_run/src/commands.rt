//! What each command does: its way from the bytes of the model to those of its text.
//!
//! Each step hands on what it made. The first that refuses stops the job; nothing is written then.

ghost use Rattle.std.specs.Prelude.{◌≡◌};
ghost use Rattle.altarica_run.specs.Doing.{AreGiven, AnswersFor};

use crate::checking::write_check;
use crate::explaining::write_reasons;
use crate::making::write_made;
use crate::shortening::write_modules;
use ar_io::Sink;
use aralia_text::print;
use cut_text::forest_laws::forests_of_the_source;
use cut_text::print_forest;
use gate_diagrams::Drawn;
use job_stages::{
    Status, Stop, Texts, chains_of, commands_of, draw, dropped_of, elaborate, explained, forest_of,
    printed, replayed, request_of, shown_of, table_of, write_conflict, write_counts, write_cuts,
    write_nodes, written,
};
use module_text::ranges;
use replayer::laws::replays_of_the_source;
use run_words::{Asked, Verb};
use std::alloc::Global;

/// Does what the command of the job asks, over the texts of its files.
pub fn run<K: Sink>(alloc: Global, asked: &Asked, texts: Texts, out: &mut K) -> Result<Status, Stop>
    requires given { AreGiven asked.now texts }
    ensures { AnswersFor asked.now texts (K.state out.old) (K.state out.new) result }
{
    match asked.job.command {
        Verb::Check => check(alloc, asked, texts, out),
        Verb::Flat => flat(alloc, asked, texts, out),
        Verb::Replay => replay(alloc, asked, texts, out),
        Verb::Explain => explain(alloc, asked, texts, out),
        Verb::Fragment => fragment(alloc, asked, texts, out),
        Verb::Equations => equations(alloc, asked, texts, out),
        Verb::Cuts => cuts(alloc, asked, texts, out),
        Verb::CheckCuts => checkcuts(alloc, asked, texts, out),
        Verb::Modules => modules(alloc, asked, texts, out),
        Verb::Make => make(alloc, asked, texts, out),
    }
}

// `check`: how many units, variables, events and observers the model has.
fn check<K: Sink>(alloc: Global, asked: &Asked, texts: Texts, out: &mut K) -> Result<Status, Stop>
    requires command { asked.now.job.command ≡ Verb.Check }
    requires given { AreGiven asked.now texts }
    ensures { AnswersFor asked.now texts (K.state out.old) (K.state out.new) result }
{
    let model = elaborate(alloc, texts.model, &asked.job.main)?;
    Ok(written(Status::Done, write_counts(&model.system, out)))
}

// `flat`: the flat system.
fn flat<K: Sink>(alloc: Global, asked: &Asked, texts: Texts, out: &mut K) -> Result<Status, Stop>
    requires command { asked.now.job.command ≡ Verb.Flat }
    requires given { AreGiven asked.now texts }
    ensures { AnswersFor asked.now texts (K.state out.old) (K.state out.new) result }
{
    let model = elaborate(alloc, texts.model, &asked.job.main)?;
    // The parts of the system are sound.
    model.system.parts();
    Ok(written(Status::Done, model.system.print(out)))
}

// `replay`: the trace of the script.
fn replay<K: Sink>(alloc: Global, asked: &Asked, texts: Texts, out: &mut K) -> Result<Status, Stop>
    requires command { asked.now.job.command ≡ Verb.Replay }
    requires given { AreGiven asked.now texts }
    ensures { AnswersFor asked.now texts (K.state out.old) (K.state out.new) result }
{
    let model = elaborate(alloc, texts.model, &asked.job.main)?;
    let commands = commands_of(alloc, &model, texts.script)?;
    // The replays of the flat system are those of its source.
    replays_of_the_source();
    Ok(replayed(replayer::replay(alloc, &model.system, &commands, out)))
}

// `explain`: why the flows have their values where the script ends.
fn explain<K: Sink>(alloc: Global, asked: &Asked, texts: Texts, out: &mut K) -> Result<Status, Stop>
    requires command { asked.now.job.command ≡ Verb.Explain }
    requires given { AreGiven asked.now texts }
    ensures { AnswersFor asked.now texts (K.state out.old) (K.state out.new) result }
{
    let model = elaborate(alloc, texts.model, &asked.job.main)?;
    let commands = commands_of(alloc, &model, texts.script)?;
    let shown = shown_of(alloc, &model, &asked.job.observer)?;
    Ok(explained(write_reasons(alloc, &model.system, &commands, shown, out)))
}

// `fragment`: the trees of modes.
fn fragment<K: Sink>(
    alloc: Global,
    asked: &Asked,
    texts: Texts,
    out: &mut K,
) -> Result<Status, Stop>
    requires command { asked.now.job.command ≡ Verb.Fragment }
    requires given { AreGiven asked.now texts }
    ensures { AnswersFor asked.now texts (K.state out.old) (K.state out.new) result }
{
    let model = elaborate(alloc, texts.model, &asked.job.main)?;
    let dropped = dropped_of(alloc, &model, &asked.job.dropped)?;
    let forest = forest_of(alloc, &model.system, &dropped, asked.order)?;
    // The forest of the flat system is that of its source.
    forests_of_the_source();
    Ok(written(Status::Done, print_forest(&model.system, &forest, out)))
}

// `equations`: the gate table of the observer's value.
fn equations<K: Sink>(
    alloc: Global,
    asked: &Asked,
    texts: Texts,
    out: &mut K,
) -> Result<Status, Stop>
    requires command { asked.now.job.command ≡ Verb.Equations }
    requires given { AreGiven asked.now texts }
    ensures { AnswersFor asked.now texts (K.state out.old) (K.state out.new) result }
{
    let model = elaborate(alloc, texts.model, &asked.job.main)?;
    let request = request_of(alloc, asked, model)?;
    let forest = forest_of(alloc, &request.system, &request.dropped, asked.order)?;
    let table = table_of(alloc, &request.system, &forest, request.wanted)?;
    Ok(written(Status::Done, print(&table.equations, &table.events, out)))
}

// `cuts`: the cuts of the observer's value, all or those of at most so many events, each in an order that replays, and how
// many there are.
fn cuts<K: Sink>(alloc: Global, asked: &Asked, texts: Texts, out: &mut K) -> Result<Status, Stop>
    requires command { asked.now.job.command ≡ Verb.Cuts }
    requires given { AreGiven asked.now texts }
    ensures { AnswersFor asked.now texts (K.state out.old) (K.state out.new) result }
{
    let model = elaborate(alloc, texts.model, &asked.job.main)?;
    let request = request_of(alloc, asked, model)?;
    let system = &request.system;
    let forest = forest_of(alloc, system, &request.dropped, asked.order)?;
    let table = table_of(alloc, system, &forest, request.wanted)?;
    match draw(alloc, &table, &forest, asked.order, asked.job.nodes) {
        Ok(Drawn::Cuts(family)) => {
            Ok(printed(write_cuts(alloc, system, &forest, family, asked.order, out)))
        }
        Ok(Drawn::Conflicts(family)) => {
            Ok(printed(write_conflict(alloc, system, &forest, family, out)))
        }
        Err(fault) => Ok(printed(write_nodes(fault, asked.job.nodes, out))),
    }
}

// `checkcuts`: what is to be said of each line of the list, and the cuts that it lacks.
fn checkcuts<K: Sink>(
    alloc: Global,
    asked: &Asked,
    texts: Texts,
    out: &mut K,
) -> Result<Status, Stop>
    requires command { asked.now.job.command ≡ Verb.CheckCuts }
    requires given { AreGiven asked.now texts }
    ensures { AnswersFor asked.now texts (K.state out.old) (K.state out.new) result }
{
    let model = elaborate(alloc, texts.model, &asked.job.main)?;
    let chains = chains_of(alloc, &model, texts.script)?;
    let request = request_of(alloc, asked, model)?;
    let system = &request.system;
    let forest = forest_of(alloc, system, &request.dropped, asked.order)?;
    let table = table_of(alloc, system, &forest, request.wanted)?;
    match draw(alloc, &table, &forest, asked.order, asked.job.nodes) {
        Ok(Drawn::Cuts(family)) => {
            Ok(printed(write_check(alloc, &request, &chains, &forest, family, asked.order, out)))
        }
        Ok(Drawn::Conflicts(family)) => {
            Ok(printed(write_conflict(alloc, system, &forest, family, out)))
        }
        Err(fault) => Ok(printed(write_nodes(fault, asked.job.nodes, out))),
    }
}

// `modules`: the modules of the cuts, and the cuts in short.
fn modules<K: Sink>(alloc: Global, asked: &Asked, texts: Texts, out: &mut K) -> Result<Status, Stop>
    requires command { asked.now.job.command ≡ Verb.Modules }
    requires given { AreGiven asked.now texts }
    ensures { AnswersFor asked.now texts (K.state out.old) (K.state out.new) result }
{
    let model = elaborate(alloc, texts.model, &asked.job.main)?;
    let ranges = ranges(alloc, &model.tree)?;
    let request = request_of(alloc, asked, model)?;
    let system = &request.system;
    let forest = forest_of(alloc, system, &request.dropped, asked.order)?;
    let table = table_of(alloc, system, &forest, request.wanted)?;
    match draw(alloc, &table, &forest, asked.order, asked.job.nodes) {
        Ok(Drawn::Cuts(family)) => {
            Ok(printed(write_modules(alloc, system, &forest, &ranges, &family, out)))
        }
        Ok(Drawn::Conflicts(family)) => {
            Ok(printed(write_conflict(alloc, system, &forest, family, out)))
        }
        Err(fault) => Ok(printed(write_nodes(fault, asked.job.nodes, out))),
    }
}

// `make`: how large the made model is, how many cuts it has, and how large the largest is.
fn make<K: Sink>(alloc: Global, asked: &Asked, texts: Texts, out: &mut K) -> Result<Status, Stop>
    requires command { asked.now.job.command ≡ Verb.Make }
    requires given { AreGiven asked.now texts }
    ensures { AnswersFor asked.now texts (K.state out.old) (K.state out.new) result }
{
    let model = elaborate(alloc, texts.model, &asked.job.main)?;
    let request = request_of(alloc, asked, model)?;
    let system = &request.system;
    let forest = forest_of(alloc, system, &request.dropped, asked.order)?;
    let table = table_of(alloc, system, &forest, request.wanted)?;
    match draw(alloc, &table, &forest, asked.order, asked.job.nodes) {
        Ok(Drawn::Cuts(family)) => {
            Ok(printed(write_made(alloc, system, asked.job.number, &family, out)))
        }
        Ok(Drawn::Conflicts(family)) => {
            Ok(printed(write_conflict(alloc, system, &forest, family, out)))
        }
        Err(fault) => Ok(printed(write_nodes(fault, asked.job.nodes, out))),
    }
}
