//! A real run answers as a call over files of which something is told: so the laws of such calls are
//! laws of real runs.
//!
//! A run is known by the loads that its shelf logs, and the call's answer by these.

ghost use Rattle.std.specs.Prelude.{◌≡◌, ℕ, List, [], Result};
ghost use Rattle.ar_io.specs.Loads.{Load};
ghost use Rattle.ar_io.specs.Outside.{Told};
ghost use Rattle.ar_io.specs.Writing.{SinkState};
ghost use Rattle.run_words.specs.Jobs.{IsAsked};
ghost use Rattle.run_words.specs.declared.jobs.Asked.{Asked};
ghost use Rattle.job_stages.specs.Files.{File};
ghost use Rattle.job_stages.specs.Jobs.{LoadsNothing};
ghost use Rattle.job_stages.specs.Loading.{AnswersFiles};
ghost use Rattle.job_stages.specs.Logs.{Came, PassesBy};
ghost use Rattle.job_stages.specs.Stages.{Ready, Passes};
ghost use Rattle.job_stages.specs.declared.refusals.Refusal.{Refusal};
ghost use Rattle.job_stages.specs.declared.status.Status.{Status};
ghost use Rattle.job_stages.specs.declared.stops.Stop.{Stop};
ghost use Rattle.altarica_run.specs.Follows.{Call, Gave, IsKnown, IsQuiet};
ghost use Rattle.altarica_run.specs.Reading.{EndsBy};
ghost use Rattle.job_laws.specs.Runs.{AgreesWith, Failed, PassesOver, AreLoadedOnce, IsCallOf};
ghost use Rattle.job_laws.specs.Runs.{AreFilesTold, settled_call};

use altarica_run::laws::one_job;

/// What a run's loads and stages came to, they come to over each shelf that tells what the loads gave.
///
/// - `files`: So the files: their texts, or which limit one passes, or which was not read.
/// - `stages`: So the stages of the job: what stands ready, or the first refusal.
pub fn logs_are_told()
    ensures files { (told : List ℕ → Told) (files : List File) (loads : List Load)
        (came : Result (List (List ℕ)) Stop) → AgreesWith told loads → Came files loads came
        → AnswersFiles (λ (texts : List (List ℕ)). texts) told (λ name. Failed name loads)
        files came }
    ensures stages { (told : List ℕ → Told) (loads : List Load) (asked : Asked)
        (x : Result Ready Refusal)
        → AgreesWith told loads → PassesBy loads asked x → PassesOver told loads asked x }
{}

/// Where no name is loaded twice, a shelf could tell what the loads gave, and of each other name that
/// there is no file.
pub fn logs_could_be_told()
    ensures { (loads : List Load) → AreLoadedOnce loads
        → (told : List ℕ → Told) × ((name : List ℕ) → IsKnown (told name)) × AgreesWith told loads }
{}

/// Real runs are calls over files of which something is told.
///
/// - `nothing_is_loaded`: A run of words that are no job, or of a command that makes its model, loads nothing.
/// - `over_what_was_loaded`: A run answers as a call answers over files of which just that is told which the
///   run's loads gave.
/// - `runs_are_calls`: A run that loads no name twice answers as a call over files of each of which something
///   is told: what the run's loads gave.
pub fn runs_are_calls()
    ensures nothing_is_loaded { (loads : List Load) (words : List (List ℕ)) (old new : SinkState)
        (s : Status) → EndsBy loads words old new s → LoadsNothing words → loads ≡ [] }
    ensures over_what_was_loaded { (loads : List Load) (words : List (List ℕ)) (old new : SinkState)
        (s : Status) → EndsBy loads words old new s → (told : List ℕ → Told) → AgreesWith told loads
        → (c : Call) × Gave c s × IsCallOf words told loads old new c }
    ensures runs_are_calls { (loads : List Load) (words : List (List ℕ)) (old new : SinkState)
        (s : Status) → EndsBy loads words old new s → AreLoadedOnce loads
        → (c : Call) × Gave c s × ((name : List ℕ) → IsKnown (c.files name))
        × AgreesWith c.files loads × IsCallOf words c.files loads old new c }
{}

/// The laws that ask that something is told of every name hold of each call where something is told of the
/// job's own files: for they hold of the same call where of each other name it is told that there is no file.
///
/// - `known`, `quiet`: So something is told of every name, and counts of faults rose as before.
/// - `gave`, `passes`: The call answers the same, and the stages of the job come to the same.
pub fn known_files_suffice()
    ensures known { (c : Call) (name : List ℕ) → IsKnown ((settled_call c).files name) }
    ensures quiet { (c : Call) → IsQuiet c → IsQuiet (settled_call c) }
    ensures gave { (c : Call) (s : Status) (asked : Asked) → Gave c s → IsAsked c.words asked
        → AreFilesTold c.files asked → Gave (settled_call c) s }
    ensures passes { (c : Call) (asked : Asked) (x : Result Ready Refusal) → AreFilesTold c.files asked
        → Passes c.files asked x → Passes (settled_call c).files asked x }
{
    one_job();
}
