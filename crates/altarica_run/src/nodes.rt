//! Laws of the limit of nodes. Each function has an empty body.

ghost use Rattle.std.specs.Prelude.{◌≡◌, ◌≤◌, ◌⊎◌, ℕ, true, List};
ghost use Rattle.ar_firing.specs.Cuts.{IsConflictFreeUpTo};
ghost use Rattle.cut_text.specs.Texts.{IsConflictText};
ghost use Rattle.gts_flatten.specs.Flat.{naming_of};
ghost use Rattle.run_words.specs.declared.jobs.Asked.{Asked};
ghost use Rattle.run_words.specs.Jobs.{IsAsked};
ghost use Rattle.altarica_run.specs.Follows.{Call, Gave, SinkRose};
ghost use Rattle.altarica_run.specs.Nodes.{HasConflict, HasEnough, IsTextOfCuts, OfAllReady};
ghost use Rattle.job_stages.specs.Stages.{Ready, lists_cuts};
ghost use Rattle.altarica_run.specs.Statuses.{IsRefused, IsNotRead};
ghost use Rattle.job_stages.specs.Tells.{MayNeedMore, Tells};
ghost use Rattle.job_stages.specs.declared.status.Status.{Status};
ghost use Rattle.job_stages.specs.declared.status.Status.TheVariants as status;

use crate::laws::one_job;

/// Where no more nodes than the limit may be needed, they suffice.
///
/// - `larger_limits_suffice`: Where more nodes than a limit may be needed, more than any smaller limit may be:
///   so a limit that cannot be too small for a job stays so when it is raised.
/// - `conflict_with_enough`, `listing_with_enough`: Where no more nodes than the job's limit may be needed, the
///   line `nodes: N` does not come: where some set of events meets a conflict, the job tells the conflict, and
///   where none does, the cuts.
/// - `call_with_conflict`, `call_with_listing`: The same of a call: with enough nodes and a conflict it ends
///   with Fault, and with enough and none with Done, unless a stage refuses the job, a file is not read, the
///   sink fails or memory is refused.
pub fn enough_nodes_suffice()
    ensures larger_limits_suffice { (w : Ready) (less more : ℕ) → less ≤ more → MayNeedMore w more → MayNeedMore w less }
    ensures conflict_with_enough { (asked : Asked) (w : Ready) (text : List ℕ) (s : Status) → Tells asked w text s
        → lists_cuts asked.job.command ≡ true → (MayNeedMore w asked.job.nodes → ⊥) → HasConflict w
        → (s ≡ status.Fault)
        × IsConflictText w.order (naming_of w.source.declarations) w.source.system w.dropped text }
    ensures listing_with_enough { (asked : Asked) (w : Ready) (text : List ℕ) (s : Status) → Tells asked w text s
        → lists_cuts asked.job.command ≡ true → (MayNeedMore w asked.job.nodes → ⊥)
        → IsConflictFreeUpTo w.order w.source.system w.dropped
        → (s ≡ status.Done) × IsTextOfCuts asked.job.command asked w text }
    ensures call_with_conflict { (c : Call) (s : Status) (asked : Asked) → Gave c s → IsAsked c.words asked
        → lists_cuts asked.job.command ≡ true → HasEnough c asked → OfAllReady c asked HasConflict
        → (s ≡ status.Fault)
        ⊎ (IsRefused c s ⊎ (IsNotRead c ⊎ (SinkRose c ⊎ (s ≡ status.Memory)))) }
    ensures call_with_listing { (c : Call) (s : Status) (asked : Asked) → Gave c s → IsAsked c.words asked
        → lists_cuts asked.job.command ≡ true → HasEnough c asked
        → OfAllReady c asked (λ w. IsConflictFreeUpTo w.order w.source.system w.dropped)
        → (s ≡ status.Done)
        ⊎ (IsRefused c s ⊎ (IsNotRead c ⊎ (SinkRose c ⊎ (s ≡ status.Memory)))) }
{
    one_job();
}
