//! How a call is answered of whose job it is known what stands ready for it, or why a stage refuses
//! it: with the text or the refusal, unless it is stopped.
//!
//! A call is stopped where a file is not read, the sink fails or memory is refused.

ghost use Rattle.std.specs.Prelude.{◌≡◌, ◌⊎◌, ℕ, true, false, List, Some, Ok, Err};
ghost use Rattle.ar_firing.specs.Cuts.{Cut, IsConflictFreeUpTo};
ghost use Rattle.firable_families.specs.Firable.{AndUpTo};
ghost use Rattle.ar_firing.specs.Listed.{AreListed};
ghost use Rattle.ar_io.specs.Outside.{Told};
ghost use Rattle.cut_text.specs.ForestTexts.{IsForestText};
ghost use Rattle.cut_text.specs.Texts.{IsConflictText};
ghost use Rattle.gts_flatten.specs.Flat.{naming_of};
ghost use Rattle.hierarchy.specs.Listing.{variables};
ghost use Rattle.job_inputs.specs.declared.wanting.Wanted.{Wanted};
ghost use Rattle.replayer.specs.Replays.{IsReplay};
ghost use Rattle.replayer.specs.Settles.{IsFaultLine};
ghost use Rattle.replayer.specs.declared.ends.End.{End};
ghost use Rattle.run_words.specs.declared.jobs.Asked.{Asked};
ghost use Rattle.run_words.specs.declared.verbs.Verb.TheVariants.{Check, Flat, Replay};
ghost use Rattle.run_words.specs.declared.verbs.Verb.TheVariants.{Fragment, Equations, Explain};
ghost use Rattle.run_words.specs.Jobs.{IsAsked};
ghost use Rattle.table_text.specs.Texts.{IsTableText};
ghost use Rattle.zdd_nodes.specs.Sections.{IsCounted, IsMoreThan};
ghost use Rattle.altarica_run.specs.Follows.{Call, Gave, IsKnown, Wrote};
ghost use Rattle.altarica_run.specs.Nodes.{HasConflict, IsTextOfCuts};
ghost use Rattle.altarica_run.specs.Says.{Says};
ghost use Rattle.job_stages.specs.Stages.{Ready, Passes, lists_cuts};
ghost use Rattle.job_stages.specs.Tells.{check_text, IsFlatText, IsExplained, status_at};
ghost use Rattle.job_stages.specs.Tells.{HasCuts, MayNeedMore, Tells, nodes_line};
ghost use Rattle.job_stages.specs.declared.refusals.Refusal.{Refusal};
ghost use Rattle.job_stages.specs.declared.status.Status.{Status};
ghost use Rattle.job_stages.specs.declared.status.Status.TheVariants as status;
ghost use Rattle.job_laws.specs.Told.{IsStopped, IsAnswered, IsToldAs, IsToldWith};

use crate::one_answer::{one_passing, texts_have_one_answer};
use crate::ready_jobs::jobs_agree;
use altarica_run::laws::one_job;
use altarica_run::nodes::enough_nodes_suffice;

/// A job over files of which something is told, and which a stage refuses, is answered with that
/// refusal, its line and its status, or is stopped.
pub fn refusals_are_told()
    ensures { (c : Call) (s : Status) (asked : Asked) (r : Refusal) → Gave c s
        → ((name : List ℕ) → IsKnown (c.files name)) → IsAsked c.words asked
        → Passes c.files asked (Err r) → IsToldAs c s r }
{
    one_job();
    one_passing();
}

/// A job over files of which something is told, and which passes all stages, is answered with a
/// text that it tells, whole, or is stopped. A job that does not tell of cuts has one text and one
/// way to end: where it tells a text, it is answered with just this one.
pub fn jobs_are_told()
    ensures told { (c : Call) (s : Status) (asked : Asked) (w : Ready) → Gave c s
        → ((name : List ℕ) → IsKnown (c.files name)) → IsAsked c.words asked
        → Passes c.files asked (Ok w) → IsAnswered c asked w s ⊎ IsStopped c s }
    ensures exact { (c : Call) (s : Status) (asked : Asked) (w : Ready) (text : List ℕ)
        (ends : Status) → Gave c s → ((name : List ℕ) → IsKnown (c.files name)) → IsAsked c.words asked
        → lists_cuts asked.job.command ≡ false → Passes c.files asked (Ok w) → Tells asked w text ends
        → ((s ≡ ends) × Wrote c text) ⊎ IsStopped c s }
{
    one_job();
    one_passing();
    jobs_agree();
    texts_have_one_answer();
}

/// What the commands write for a source is told.
///
/// - `check`, `flat`, `fragment`, `equations`: So each command that neither runs a script nor tells of cuts is
///   answered with its text, or is stopped: `check` with how much is declared, `flat` with the flat system,
///   `fragment` with the trees of modes, and `equations` with the gate table.
/// - `replay`, `explain`: And so each command that runs a script: `replay` is answered with the trace of the
///   run, and ends as the run does, and `explain` with why the flows have their values where the run settles,
///   or with the fault in which it ends, unless it is stopped.
/// - `too_many_cuts_are_told`: A job that tells of cuts, over files of which something is told, which passes
///   all stages, and in which an observer's value is asked for and no set of events meets a conflict: where the
///   family of the cuts itself has more counted sections than the job's limit of nodes, it is answered with the
///   line `nodes: N` and with Nodes, or is stopped.
pub fn texts_are_told()
    ensures check { (c : Call) (s : Status) (asked : Asked) (w : Ready) → Gave c s
        → ((name : List ℕ) → IsKnown (c.files name)) → IsAsked c.words asked → asked.job.command ≡ Check
        → Passes c.files asked (Ok w)
        → ((s ≡ status.Done) × Wrote c (check_text w.source.declarations)) ⊎ IsStopped c s }
    ensures flat { (c : Call) (s : Status) (asked : Asked) (w : Ready) → Gave c s
        → ((name : List ℕ) → IsKnown (c.files name)) → IsAsked c.words asked → asked.job.command ≡ Flat
        → Passes c.files asked (Ok w)
        → IsToldWith c s status.Done (IsFlatText w.source) ⊎ IsStopped c s }
    ensures fragment { (c : Call) (s : Status) (asked : Asked) (w : Ready) → Gave c s
        → ((name : List ℕ) → IsKnown (c.files name)) → IsAsked c.words asked → asked.job.command ≡ Fragment
        → Passes c.files asked (Ok w)
        → IsToldWith c s status.Done (IsForestText (naming_of w.source.declarations)
        w.source.system w.dropped) ⊎ IsStopped c s }
    ensures equations { (c : Call) (s : Status) (asked : Asked) (w : Ready) (wanted : Wanted)
        → Gave c s → ((name : List ℕ) → IsKnown (c.files name)) → IsAsked c.words asked
        → asked.job.command ≡ Equations → Passes c.files asked (Ok w) → w.wanted ≡ Some wanted
        → IsToldWith c s status.Done (λ text. IsTableText
        (variables w.source.declarations.model w.source.declarations.units)
        (naming_of w.source.declarations) w.source.system w.dropped wanted.observer wanted.value
        text) ⊎ IsStopped c s }
    ensures replay { (c : Call) (s : Status) (asked : Asked) (w : Ready) → Gave c s
        → ((name : List ℕ) → IsKnown (c.files name)) → IsAsked c.words asked → asked.job.command ≡ Replay
        → Passes c.files asked (Ok w)
        → ((end : End) × IsToldWith c s (status_at end) (λ text. IsReplay
        (naming_of w.source.declarations) w.source.system w.commands text end)) ⊎ IsStopped c s }
    ensures explain { (c : Call) (s : Status) (asked : Asked) (w : Ready) → Gave c s
        → ((name : List ℕ) → IsKnown (c.files name)) → IsAsked c.words asked → asked.job.command ≡ Explain
        → Passes c.files asked (Ok w)
        → (IsToldWith c s status.Done (IsExplained w)
        ⊎ IsToldWith c s status.Fault (IsFaultLine (naming_of w.source.declarations)
        w.source.system w.commands)) ⊎ IsStopped c s }
    ensures too_many_cuts_are_told { (c : Call) (s : Status) (asked : Asked) (w : Ready) → Gave c s
        → ((name : List ℕ) → IsKnown (c.files name)) → IsAsked c.words asked
        → lists_cuts asked.job.command ≡ true → Passes c.files asked (Ok w) → (has : HasCuts w)
        (sets : List (List ℕ))
        → AreListed (AndUpTo w.order (Cut w.source.system w.dropped has.observed has.wanted.value)) sets
        → IsMoreThan asked.job.nodes (IsCounted sets)
        → ((s ≡ status.Nodes) × Wrote c (nodes_line asked.job.nodes)) ⊎ IsStopped c s }
{
    jobs_are_told();
}

/// What the commands write of conflicts and cuts is told.
///
/// - `conflicts_are_told`: A job that tells of cuts, over files of which something is told, which passes all
///   stages, and for which no more nodes than its limit may be needed: where some set of events meets a
///   conflict, it is answered with the line of the conflict and with Fault, or is stopped.
/// - `cuts_are_told`: The same job, where no set of events meets a conflict, is answered with the whole text
///   that its command writes of the cuts, and with Done, or is stopped: with the whole listing, with the cuts
///   of the model that is made counted, with what is to be said of the list, or with the modules.
pub fn cuts_are_told()
    ensures conflicts_are_told { (c : Call) (s : Status) (asked : Asked) (w : Ready) → Gave c s
        → ((name : List ℕ) → IsKnown (c.files name)) → IsAsked c.words asked
        → lists_cuts asked.job.command ≡ true → Passes c.files asked (Ok w) → HasConflict w
        → (MayNeedMore w asked.job.nodes → ⊥)
        → IsToldWith c s status.Fault (λ text. IsConflictText w.order (naming_of w.source.declarations)
        w.source.system w.dropped text) ⊎ IsStopped c s }
    ensures cuts_are_told { (c : Call) (s : Status) (asked : Asked) (w : Ready) → Gave c s
        → ((name : List ℕ) → IsKnown (c.files name)) → IsAsked c.words asked
        → lists_cuts asked.job.command ≡ true → Passes c.files asked (Ok w)
        → IsConflictFreeUpTo w.order w.source.system w.dropped → (MayNeedMore w asked.job.nodes → ⊥)
        → IsToldWith c s status.Done (λ text. IsTextOfCuts asked.job.command asked w text) ⊎ IsStopped c s }
{
    jobs_are_told();
    enough_nodes_suffice();
}

/// Where words over files of which something is told end with Nodes, they tell of cuts, their text
/// is the line `nodes: N` of the job's limit, and more nodes than this may be needed.
pub fn nodes_are_told()
    ensures { (files : List ℕ → Told) → ((name : List ℕ) → IsKnown (files name))
        → (words : List (List ℕ)) (asked : Asked) (w : Ready) (text : List ℕ) → IsAsked words asked
        → Passes files asked (Ok w) → Says files words text status.Nodes
        → (lists_cuts asked.job.command ≡ true) × (text ≡ nodes_line asked.job.nodes)
        × MayNeedMore w asked.job.nodes }
{
    one_job();
    one_passing();
    jobs_agree();
}
