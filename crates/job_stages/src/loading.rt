//! The texts of a job: those of its files, or the model that its command makes.

ghost use Rattle.std.specs.Prelude.{◌≡◌, ◌≤◌, ℕ, true, false, List, [], ◌∷◌, Option};
ghost use Rattle.ar_io.specs.Outside.{Rose};
ghost use Rattle.run_words.specs.Jobs.{IsAsked};
ghost use Rattle.job_stages.specs.Files.{File, files_of, files_where, script_files};
ghost use Rattle.job_stages.specs.Jobs.{makes_model};
ghost use Rattle.job_stages.specs.Loading.{AnswersFile, AnswersFiles, AnswersTexts, texts_of, texts_where, script_texts};
ghost use Rattle.job_stages.specs.Loading.{AnswersLoads, seen, one_text};
ghost use Rattle.job_stages.specs.Logs.{Came, Grew};

use crate::jobs::makes_model;
use crate::refusals::{FileKind, Refusal};
use crate::stops::Stop;
use ar_base::{Count, Text};
use ar_io::{LoadFault, Shelf};
use run_words::laws::one_job;
use run_words::{Asked, make_text};
use std::alloc::Global;

/// The texts of a job.
#[derive(Drop)]
pub struct Texts {
    /// The model.
    pub model: Vec<u8>,
    /// The script, where the job has one.
    pub script: Option<Vec<u8>>,
}

/// The texts of a job: those of its files, the model first; the model of `make` is made, and then
/// nothing is loaded.
pub fn job_texts<H: Shelf>(alloc: Global, shelf: &mut H, asked: &Asked) -> Result<Texts, Stop>
    requires { (words : List (List ℕ)) × IsAsked words asked.now }
    ensures made { makes_model asked.now.job.command ≡ true → shelf.new ≡ shelf.old }
    ensures texts { AnswersTexts (H.holds shelf.old)
        (λ name. Rose (H.faults shelf.old name) (H.faults shelf.new name))
        asked.now result }
    ensures came { Grew (H.loads shelf.old) (H.loads shelf.new)
        (AnswersLoads (texts_of asked.now) (files_of asked.now) result) }
{
    // A made model is short.
    one_job();
    if makes_model(asked.job.command) {
        let model = make_text(alloc, asked.job.number)?;
        return Ok(Texts {
            model,
            script: None,
        });
    }
    load_all(alloc, shelf, asked)
}

// Loads the files of a job, the model first.
fn load_all<H: Shelf>(alloc: Global, shelf: &mut H, asked: &Asked) -> Result<Texts, Stop>
    ensures loaded { AnswersFiles (texts_where false) (H.holds shelf.old)
        (λ name. Rose (H.faults shelf.old name) (H.faults shelf.new name))
        (files_where false asked.now) result }
    ensures came { Grew (H.loads shelf.old) (H.loads shelf.new)
        (λ loads. Came (files_where false asked.now) loads (seen (texts_where false) result)) }
{
    let name = asked.job.model.as_str();
    let model = load(alloc, shelf, name, FileKind::Model, Count::ModelBytes)?;
    let script = load_script(alloc, shelf, &asked.job.script)?;
    Ok(Texts { model, script })
}

// Loads the script of this name, where there is one.
fn load_script<H: Shelf>(
    alloc: Global,
    shelf: &mut H,
    name: &Option<Text>,
) -> Result<Option<Vec<u8>>, Stop>
    ensures loaded { AnswersFiles script_texts (H.holds shelf.old)
        (λ name. Rose (H.faults shelf.old name) (H.faults shelf.new name))
        (script_files name.now) result }
    ensures came { Grew (H.loads shelf.old) (H.loads shelf.new)
        (λ loads. Came (script_files name.now) loads (seen script_texts result)) }
{
    match name {
        Some(name) => {
            let name = name.as_str();
            let bytes = load(alloc, shelf, name, FileKind::Script, Count::ScriptBytes)?;
            Ok(Some(bytes))
        }
        None => Ok(None),
    }
}

// Loads a file.
fn load<H: Shelf>(
    alloc: Global,
    shelf: &mut H,
    name: &str,
    kind: FileKind,
    count: Count,
) -> Result<Vec<u8>, Stop>
    ensures loaded { AnswersFile (H.holds shelf.old)
        (λ name. Rose (H.faults shelf.old name) (H.faults shelf.new name))
        (record { kind = kind; name = name.now; count = count }) result }
    ensures came { Grew (H.loads shelf.old) (H.loads shelf.new) (λ loads. Came
        (record { kind = kind; name = name.now; count = count } ∷ []) loads (seen one_text result)) }
    ensures keeps { (other : List ℕ) → H.holds shelf.new other ≡ H.holds shelf.old other }
    ensures rises { (other : List ℕ) → H.faults shelf.old other ≤ H.faults shelf.new other }
{
    match shelf.load(alloc, name, count.limit() as usize) {
        Ok(bytes) => Ok(bytes),
        Err(LoadFault::Failed) => Err(Stop::Refused(Refusal::NotRead(kind))),
        Err(LoadFault::TooLong) => Err(Stop::Refused(Refusal::Size(count))),
        Err(LoadFault::Memory) => Err(Stop::Memory),
    }
}
