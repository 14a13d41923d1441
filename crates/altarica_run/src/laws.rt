//! Laws of jobs and of their files. Each function has an empty body.

ghost use Rattle.std.specs.Prelude.{◌≡◌, ◌≢◌, ◌<◌, ◌≤◌, ◌⊎◌, ℕ, false, true, List, Some, Result, Err, length};
ghost use Rattle.ar_base.specs.Counts.{limit_of};
ghost use Rattle.ar_base.specs.declared.counts.Count.TheVariants.{ModelBytes, ScriptBytes};
ghost use Rattle.ar_io.specs.Outside.{Told, Bytes, Absent};
ghost use Rattle.run_words.specs.declared.jobs.Asked.{Asked};
ghost use Rattle.run_words.specs.declared.verbs.Verb.TheVariants.{Cuts, Replay};
ghost use Rattle.run_words.specs.Jobs.{IsAsked};
ghost use Rattle.job_stages.specs.Files.{File, Loaded};
ghost use Rattle.altarica_run.specs.Follows.{Call, Gave, IsKnown, IsQuiet, IsShelfSame, LacksScript};
ghost use Rattle.altarica_run.specs.Follows.{Wrote, RoseAt, SinkRose, sink_before, sink_after};
ghost use Rattle.job_stages.specs.Jobs.{IsNoJob, makes_model};
ghost use Rattle.altarica_run.specs.Listings.{IsListing};
ghost use Rattle.job_stages.specs.Refusals.{line_of};
ghost use Rattle.job_stages.specs.Stages.{Ready, Passes};
ghost use Rattle.job_stages.specs.declared.refusals.FileKind.TheVariants.{Model};
ghost use Rattle.job_stages.specs.declared.refusals.Refusal.{Refusal};
ghost use Rattle.job_stages.specs.declared.refusals.Refusal.TheVariants.{NotRead, Size};
ghost use Rattle.job_stages.specs.declared.status.Status.{Status};
ghost use Rattle.job_stages.specs.declared.status.Status.TheVariants as status;

/// Words give at most one job.
pub fn one_job()
    ensures { (words : List (List ℕ)) (a b : Asked) → IsAsked words a → IsAsked words b
        → a ≡ b }
{
    run_words::laws::one_job();
}

/// Over files of which something is told, loading comes to one thing: the texts, or one limit.
pub fn one_loading()
    ensures { (told : List ℕ → Told) → ((name : List ℕ) → IsKnown (told name))
        → (files : List File) (x y : Result (List (List ℕ)) Refusal)
        → Loaded told files x → Loaded told files y → x ≡ y }
{}

/// Files that are too long are refused.
///
/// - `long_model_refused`, `long_models_are_refused`: A model file that is longer than its limit is refused for
///   that alone, whatever it says.
/// - `long_script_refused`, `long_scripts_are_refused`: A script or a list that is longer than its limit, of a
///   model that is not, is refused for that alone, whatever the two say.
pub fn long_files_are_refused()
    ensures long_model_refused { (files : List ℕ → Told) (asked : Asked) (text : List ℕ) (x : Result Ready Refusal)
        → makes_model asked.job.command ≡ false
        → files asked.job.model ≡ Bytes text → limit_of ModelBytes < length text
        → Passes files asked x → x ≡ Err (Size ModelBytes) }
    ensures long_models_are_refused { (c : Call) (s : Status) (asked : Asked) (text : List ℕ) → Gave c s → IsQuiet c
        → IsAsked c.words asked → makes_model asked.job.command ≡ false
        → c.files asked.job.model ≡ Bytes text
        → limit_of ModelBytes < length text
        → ((s ≡ status.Size) × Wrote c (line_of (Size ModelBytes))) ⊎ (s ≡ status.Memory) }
    ensures long_script_refused { (files : List ℕ → Told) (asked : Asked) (name model script : List ℕ)
        (x : Result Ready Refusal) → makes_model asked.job.command ≡ false → asked.job.script ≡ Some name
        → files asked.job.model ≡ Bytes model → length model ≤ limit_of ModelBytes
        → files name ≡ Bytes script → limit_of ScriptBytes < length script
        → Passes files asked x → x ≡ Err (Size ScriptBytes) }
    ensures long_scripts_are_refused { (c : Call) (s : Status) (asked : Asked) (name model script : List ℕ)
        → Gave c s → IsQuiet c → IsAsked c.words asked
        → makes_model asked.job.command ≡ false → asked.job.script ≡ Some name
        → c.files asked.job.model ≡ Bytes model → length model ≤ limit_of ModelBytes
        → c.files name ≡ Bytes script → limit_of ScriptBytes < length script
        → ((s ≡ status.Size) × Wrote c (line_of (Size ScriptBytes))) ⊎ (s ≡ status.Memory) }
{
    one_job();
}

/// Files that are not there are not read, and models that are made need none.
///
/// - `absent_models_are_not_read`: Where the shelf tells that there is no model file, the call says that it was
///   not read, and its own count of faults rose, unless the sink fails or memory is refused.
/// - `absent_scripts_are_not_read`: Where the shelf tells that there is no script or list behind a model that
///   is there, the call says that a file was not read, and that file's own count of faults rose, unless the
///   sink fails or memory is refused. The file is the script, unless the model's count rose.
/// - `made_models_are_not_loaded`: A command that makes its model loads nothing: it never says that a file was
///   not read.
pub fn absent_files_are_not_read()
    ensures absent_models_are_not_read { (c : Call) (s : Status) (asked : Asked) → Gave c s → IsAsked c.words asked
        → makes_model asked.job.command ≡ false → c.files asked.job.model ≡ Absent
        → ((s ≡ status.Read) × RoseAt c asked.job.model × Wrote c (line_of (NotRead Model)))
        ⊎ (SinkRose c ⊎ (s ≡ status.Memory)) }
    ensures absent_scripts_are_not_read { (c : Call) (s : Status) (asked : Asked) (name model : List ℕ) → Gave c s
        → IsAsked c.words asked → makes_model asked.job.command ≡ false → asked.job.script ≡ Some name
        → c.files asked.job.model ≡ Bytes model → length model ≤ limit_of ModelBytes
        → c.files name ≡ Absent
        → ((s ≡ status.Read) × LacksScript c asked name) ⊎ (SinkRose c ⊎ (s ≡ status.Memory)) }
    ensures made_models_are_not_loaded { (c : Call) (s : Status) (asked : Asked) → Gave c s → IsAsked c.words asked
        → makes_model asked.job.command ≡ true → s ≢ status.Read }
{
    one_job();
}

/// A listing of cuts that ends well names every cut of the observer's value, each once, and nothing
/// else. Each is listed in an order that replays in the whole model, dropped events included: fired
/// as they stand, its labels meet no fault, and the observer then has the wanted value.
pub fn listings_are_whole()
    ensures { (c : Call) (asked : Asked) → Gave c status.Done → IsAsked c.words asked
        → asked.job.command ≡ Cuts → IsListing c asked }
{
    one_job();
}

/// When the shelf and the sink are as they were.
///
/// - `untouched_without_job`, `untouched_where_made`: Words that are no job, and those of a command that makes
///   its model, leave the shelf as it was: of no name what is told of it changes, nor its count of faults.
/// - `refused_memory_writes_nothing`: Where memory is refused nothing was written, and the sink met no fault,
///   unless the job is a replay, which writes as it goes.
pub fn shelves_and_sinks()
    ensures untouched_without_job { (c : Call) (s : Status) → Gave c s → IsNoJob c.words → IsShelfSame c }
    ensures untouched_where_made { (c : Call) (s : Status) (asked : Asked) → Gave c s → IsAsked c.words asked
        → makes_model asked.job.command ≡ true → IsShelfSame c }
    ensures refused_memory_writes_nothing { (c : Call) → Gave c status.Memory
        → ((asked : Asked) → IsAsked c.words asked → asked.job.command ≢ Replay)
        → sink_after c ≡ sink_before c }
{
    one_job();
}
