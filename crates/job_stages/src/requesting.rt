//! What the words, the script, the list and the command ask of a system.

ghost use Rattle.std.specs.Prelude.{◌≡◌, ◌≤◌, ℕ, true, List, Some, IfOk, length};
ghost use Rattle.ar_base.specs.Counts.{limit_of};
ghost use Rattle.ar_base.specs.declared.counts.Count.TheVariants.{ScriptBytes};
ghost use Rattle.gts_flatten.specs.Elaborating.{Elaborated};
ghost use Rattle.job_inputs.specs.CutLists.{CutLine};
ghost use Rattle.job_stages.specs.Passing.{IsStageOf, IsFlattened, AreCommands, ReadsScript, AreLines, ReadsCuts, IsShown, ReadsShown};
ghost use Rattle.job_stages.specs.Passing.{IsThere, IsRequestOf, with_lines, stop_of_cuts, AreDropped, ReadsList, IsWantedIn, ReadsWanted};
ghost use Rattle.job_stages.specs.Stages.{AsksByWords, has_table, observer_asked};

use crate::elaborating::Flattened;
use crate::jobs::makes_model;
use crate::refusals::Refusal;
use crate::stops::Stop;
use ar_base::{Count, EventId, Text};
use gts_core::{Chain, Gts};
use job_inputs::{
    Command, ScriptFault, Wanted, observer_named, read_cuts, read_events, read_script, read_wanted,
};
use run_words::Asked;
use std::alloc::Global;

/// A system, and what the words ask of it where that is an observer's value.
#[derive(Drop)]
pub struct Request {
    /// The flat system.
    pub system: Gts,
    /// The dropped events.
    pub dropped: Vec<EventId>,
    /// The observer with its value.
    pub wanted: Wanted,
}

/// What the words ask of the system, where that is an observer's value. The tree is let go.
pub fn request_of(alloc: Global, asked: &Asked, model: Flattened) -> Result<Request, Stop>
    requires source { (x : Elaborated) × IsFlattened x model }
    requires command { has_table asked.now.job.command ≡ true }
    requires observer { (path : List ℕ) × (observer_asked asked.now ≡ Some path) }
    ensures same { IfOk result (λ request. request.system ≡ model.system) }
    ensures sought { (x : Elaborated) (lines : List CutLine) → IsFlattened x model
        → IsStageOf (IsRequestOf asked.now.order x lines)
        (AsksByWords asked.now (with_lines asked.now.order x lines)) result }
{
    let dropped = dropped_of(alloc, &model, &asked.job.dropped)?;
    let wanted = wanted_of(alloc, &model, observer_of(asked), &asked.job.value)?;
    Ok(Request {
        system: model.system,
        dropped,
        wanted,
    })
}

// The path of the observer that is asked for: that of the words, or of the models that are made.
fn observer_of(asked: &Asked) -> &str
    requires { (path : List ℕ) × (observer_asked asked.now ≡ Some path) }
    ensures { observer_asked asked.now ≡ Some result.now }
{
    if makes_model(asked.job.command) {
        return "lost";
    }
    match &asked.job.observer {
        Some(path) => path.as_str(),
        None => unreachable!(),
    }
}

/// The events that the list names, where there is one.
pub fn dropped_of(
    alloc: Global,
    model: &Flattened,
    list: &Option<Text>,
) -> Result<Vec<EventId>, Stop>
    requires { (x : Elaborated) × IsFlattened x model.now }
    ensures { (x : Elaborated) → IsFlattened x model.now
        → IsStageOf (λ dropped events. AreDropped model.now.system dropped events.items)
        (ReadsList list.now x) result }
{
    match list {
        Some(text) => {
            let bytes = text.as_str().as_bytes();
            let events = read_events(alloc, &model.tree, &model.system, bytes)?;
            Ok(events)
        }
        None => Ok(Vec::new(alloc)),
    }
}

/// The observer of this path, and the value of it that is asked for.
pub fn wanted_of(
    alloc: Global,
    model: &Flattened,
    observer: &str,
    value: &Option<Text>,
) -> Result<Wanted, Stop>
    requires { (x : Elaborated) × IsFlattened x model.now }
    ensures { (x : Elaborated) → IsFlattened x model.now
        → IsStageOf (IsWantedIn model.now.system) (ReadsWanted observer.now value.now x) result }
{
    let bytes = observer.as_bytes();
    let wanted = read_wanted(alloc, &model.tree, &model.system, bytes, value)?;
    Ok(wanted)
}

/// The commands of the script, which is let go.
pub fn commands_of(
    alloc: Global,
    model: &Flattened,
    script: Option<Vec<u8>>,
) -> Result<Vec<Command>, Stop>
    requires source { (x : Elaborated) × IsFlattened x model.now }
    requires there { IsThere script }
    ensures { (x : Elaborated) → IsFlattened x model.now
        → IsStageOf (λ cs commands. AreCommands model.now.system cs commands.items)
        (ReadsScript script x) result }
{
    match script {
        Some(bytes) => {
            let commands = read_script(alloc, &model.tree, &model.system, &bytes)?;
            Ok(commands)
        }
        None => unreachable!(),
    }
}

/// The cut lines of the list, which is let go.
pub fn chains_of(
    alloc: Global,
    model: &Flattened,
    list: Option<Vec<u8>>,
) -> Result<Vec<Chain>, Stop>
    requires source { (x : Elaborated) × IsFlattened x model.now }
    requires there { IsThere list }
    ensures { (x : Elaborated) → IsFlattened x model.now
        → IsStageOf (λ cuts chains. AreLines model.now.system cuts chains.items)
        (ReadsCuts list x) result }
{
    match list {
        Some(bytes) => listed(alloc, model, &bytes),
        None => unreachable!(),
    }
}

// The cut lines of a list, of which there may be so many and no more.
fn listed(alloc: Global, model: &Flattened, list: &Vec<u8>) -> Result<Vec<Chain>, Stop>
    requires source { (x : Elaborated) × IsFlattened x model.now }
    requires short { length list.now.items ≤ limit_of ScriptBytes }
    ensures { (x : Elaborated) → IsFlattened x model.now
        → IsStageOf (λ cuts chains. AreLines model.now.system cuts chains.items)
        (ReadsCuts (Some list.now) x) result }
{
    match read_cuts(alloc, &model.tree, &model.system, list) {
        Ok(chains) => {
            if chains.len() > Count::CutLines.limit() as usize {
                return Err(Stop::Refused(Refusal::Size(Count::CutLines)));
            }
            Ok(chains)
        }
        Err(fault) => Err(cut_stop(fault)),
    }
}

// Why a list is refused.
fn cut_stop(fault: ScriptFault) -> Stop
    ensures { result ≡ stop_of_cuts fault }
{
    match fault {
        ScriptFault::Line(line) => Stop::Refused(Refusal::NoCut(line)),
        ScriptFault::Which(line) => Stop::Refused(Refusal::NeedsWay(line)),
        ScriptFault::Unknown(line) => Stop::Refused(Refusal::NoEvent(line)),
        ScriptFault::Memory => Stop::Memory,
    }
}

/// The observer alone whose flows are to be explained, where one is named.
pub fn shown_of(alloc: Global, model: &Flattened, path: &Option<Text>) -> Result<Option<u32>, Stop>
    requires source { (x : Elaborated) × IsFlattened x model.now }
    ensures { (x : Elaborated) → IsFlattened x model.now
        → IsStageOf (IsShown model.now.system) (ReadsShown path.now x) result }
{
    match path {
        Some(path) => {
            let bytes = path.as_str().as_bytes();
            match observer_named(alloc, &model.tree, &model.system, bytes)? {
                Some(observer) => Ok(Some(observer)),
                None => Err(Stop::Refused(Refusal::NoObserver)),
            }
        }
        None => Ok(None),
    }
}
