//! What follows from the answer of a call.

ghost use Rattle.std.specs.Prelude.{◌≡◌, ◌≢◌, ◌⊎◌};
ghost use Rattle.run_words.specs.declared.jobs.Asked.{Asked};
ghost use Rattle.run_words.specs.Jobs.{IsAsked};
ghost use Rattle.altarica_run.specs.Follows.{Call, Gave, SinkRose, IsQuiet, IsPrefix, IsTextSaid};
ghost use Rattle.job_stages.specs.Jobs.{IsNoJob};
ghost use Rattle.altarica_run.specs.Statuses.{IsWholeTold, IsRefused, Meaning_of};
ghost use Rattle.job_stages.specs.declared.status.Status.{Status};
ghost use Rattle.job_stages.specs.declared.status.Status.TheVariants as status;

/// What a call answers, in words.
///
/// - `meaning`, `prefix`, `usage`: What each status means, and what the sink holds after every answer. Where
///   the words are no job, the answer says so, unless the outside fails.
/// - `nothing_gives_up`, `nothing_gives_up_on_jobs`: Where nothing of the outside fails, the call says what its words say,
///   unless memory is refused: a job is told to its end, or a stage of it refuses.
/// - `no_fault_passes_unseen`: No fault of the sink passes unseen: but where the call answers that the output
///   was not written, the sink's count of faults is as it was.
pub fn answers_in_words()
    ensures meaning { (c : Call) (s : Status) → Gave c s → Meaning_of c s }
    ensures prefix { (c : Call) (s : Status) → Gave c s → IsPrefix c }
    ensures usage { (c : Call) (s : Status) → Gave c s → IsNoJob c.words → (SinkRose c → ⊥)
        → (s ≡ status.Usage) ⊎ (s ≡ status.Memory) }
    ensures nothing_gives_up { (c : Call) (s : Status) → Gave c s → IsQuiet c
        → IsTextSaid c s ⊎ (s ≡ status.Memory) }
    ensures nothing_gives_up_on_jobs { (c : Call) (s : Status) (asked : Asked) → Gave c s → IsQuiet c
        → IsAsked c.words asked → IsWholeTold c s ⊎ (IsRefused c s ⊎ (s ≡ status.Memory)) }
    ensures no_fault_passes_unseen { (c : Call) (s : Status) → Gave c s → s ≢ status.Write → c.sink_new ≡ c.sink_old }
{}
