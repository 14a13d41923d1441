//! What words say over given files is at most one text, and a call of them answers with it.

ghost use Rattle.std.specs.Prelude.{◌≡◌, ◌⊎◌, ℕ, List, Result, Ok, Err};
ghost use Rattle.ar_firing.specs.Cuts.{IsConflictFreeUpTo};
ghost use Rattle.ar_io.specs.Outside.{Told};
ghost use Rattle.run_words.specs.declared.jobs.Asked.{Asked};
ghost use Rattle.run_words.specs.declared.verbs.Verb.TheVariants.{Cuts};
ghost use Rattle.run_words.specs.Jobs.{IsAsked};
ghost use Rattle.altarica_run.specs.Follows.{Call, Gave, IsKnown, IsQuiet, Wrote};
ghost use Rattle.job_stages.specs.Refusals.{line_of, status_of};
ghost use Rattle.altarica_run.specs.Says.{Says};
ghost use Rattle.job_stages.specs.Stages.{Ready, Passes, Stages};
ghost use Rattle.job_stages.specs.Tells.{MayNeedMore};
ghost use Rattle.job_stages.specs.declared.refusals.Refusal.{Refusal};
ghost use Rattle.job_stages.specs.declared.status.Status.{Status};
ghost use Rattle.job_stages.specs.declared.status.Status.TheVariants as status;
ghost use Rattle.source_laws.specs.Answers.{SameAnswer};
ghost use Rattle.job_laws.specs.Ready.{SameReady};
ghost use Rattle.job_laws.specs.Definite.{AgreeButNodes};
ghost use Rattle.job_laws.specs.Listings.{IsListingOf};

use crate::alike_laws::{one_source_or_refusal, sources_are_definite};
use crate::ready_jobs::jobs_agree;
use altarica_run::laws::{listings_are_whole, one_job, one_loading};
use job_inputs::laws::one_list;
use parser_laws::readings::one_reading;

/// Whatever a shelf reports: of texts that were read all stages of a job have at most one answer. All
/// of them are passed, by jobs that stand ready alike, or they refuse in one way.
pub fn texts_that_were_read_have_one_answer()
    ensures { (asked : Asked) (texts : List (List ℕ)) (text : List ℕ) (a b : Result Ready Refusal)
        → Stages asked texts text a → Stages asked texts text b → SameAnswer SameReady a b }
{
    one_list();
    one_source_or_refusal();
    sources_are_definite();
    jobs_agree();
}

/// The stages of a job over files of which something is told have at most one answer: all of them are
/// passed, by jobs that stand ready alike, or they refuse in one way.
pub fn one_passing()
    ensures { (files : List ℕ → Told) → ((name : List ℕ) → IsKnown (files name)) → (asked : Asked)
        (a b : Result Ready Refusal) → Passes files asked a → Passes files asked b
        → SameAnswer SameReady a b }
{
    one_loading();
    one_list();
    one_reading();
    one_source_or_refusal();
    sources_are_definite();
    jobs_agree();
}

/// Words over files of which something is told say at most one text and end in one way, save that,
/// where cuts are asked for, the line `nodes: N` may stand beside it.
pub fn texts_have_one_answer()
    ensures { (files : List ℕ → Told) → ((name : List ℕ) → IsKnown (files name))
        → (words : List (List ℕ)) (s t : List ℕ) (a b : Status) → Says files words s a
        → Says files words t b
        → ((s ≡ t) × (a ≡ b)) ⊎ ((asked : Asked) × IsAsked words asked × AgreeButNodes asked s a t b) }
{
    one_job();
    one_loading();
    one_list();
    one_reading();
    one_source_or_refusal();
    sources_are_definite();
    jobs_agree();
}

/// A job over files of which something is told, and which a stage refuses, is answered with that
/// refusal, with its line and status, unless something of the outside fails or memory is refused.
pub fn causes_are_told()
    ensures { (c : Call) (s : Status) (asked : Asked) (r : Refusal) → Gave c s → IsQuiet c
        → ((name : List ℕ) → IsKnown (c.files name)) → IsAsked c.words asked
        → Passes c.files asked (Err r)
        → ((s ≡ status_of r) × Wrote c (line_of r)) ⊎ (s ≡ status.Memory) }
{
    one_job();
    one_passing();
}

/// A job of `cuts` over files of which something is told, which passes all stages, of whose events
/// no set meets a conflict, and for which no more nodes than its limit may be needed, is answered
/// with the whole listing, unless something of the outside fails or memory is refused.
pub fn listings_are_complete()
    ensures { (c : Call) (s : Status) (asked : Asked) (w : Ready) → Gave c s → IsQuiet c
        → ((name : List ℕ) → IsKnown (c.files name)) → IsAsked c.words asked → asked.job.command ≡ Cuts
        → Passes c.files asked (Ok w) → IsConflictFreeUpTo w.order w.source.system w.dropped
        → (MayNeedMore w asked.job.nodes → ⊥)
        → ((s ≡ status.Done) × IsListingOf c asked w) ⊎ (s ≡ status.Memory) }
{
    one_job();
    listings_are_whole();
    jobs_agree();
    one_passing();
}
