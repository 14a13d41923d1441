//! What follows for sources that are alike, and that the sources of a text are, however it is read.

ghost use Rattle.std.specs.Prelude.{ℕ, List, Option, Result, Ok};
ghost use Rattle.gts_flatten.specs.Elaborating.{Elaborated};
ghost use Rattle.run_words.specs.declared.jobs.Asked.{Asked};
ghost use Rattle.job_stages.specs.Elaborates.{Elaborates};
ghost use Rattle.job_stages.specs.Stages.{Ready, Readies};
ghost use Rattle.job_stages.specs.declared.refusals.Refusal.{Refusal};
ghost use Rattle.job_stages.specs.declared.status.Status.{Status};
ghost use Rattle.source_laws.specs.Answers.{SameAnswer};
ghost use Rattle.source_laws.specs.Sources.{SameSource};
ghost use Rattle.job_laws.specs.Ready.{SameReady};
ghost use Rattle.job_laws.specs.Definite.{IsDefinite, SaysOf, AgreeButNodes};

use crate::ready_jobs::jobs_agree;
use job_inputs::laws::one_list;
use parser_laws::readings::one_reading;
use source_laws::laws::{texts_are_seen_alike, texts_break_the_same_rules};
use source_laws::sources::one_source_of_a_text;

/// Jobs of sources that are alike have at most one answer.
///
/// - `one_readiness_of_alike_sources`: All stages of a job that come after sources that are alike have at most
///   one answer: both jobs stand ready alike, or both are refused for one reason.
/// - `one_answer_of_alike_sources`: Of sources that are alike the words of a job say at most one text and end
///   in one way, save that, where cuts are asked for, the line `nodes: N` may stand beside it.
pub fn one_answer_of_alike_sources()
    ensures one_readiness_of_alike_sources { (x y : Elaborated) → SameSource x y → IsDefinite y → (asked : Asked)
        (texts : List (List ℕ)) (a b : Result Ready Refusal) → Readies asked texts x a
        → Readies asked texts y b → SameAnswer SameReady a b }
    ensures one_answer_of_alike_sources { (x y : Elaborated) → SameSource x y → IsDefinite y → (asked : Asked)
        (texts : List (List ℕ)) (s t : List ℕ) (a b : Status) → SaysOf asked texts x s a
        → SaysOf asked texts y t b → AgreeButNodes asked s a t b }
{
    one_list();
    jobs_agree();
}

/// However a text is read, the stages up to its source have at most one answer: its sources from the main
/// block that is asked for are alike, or it is refused in one way.
pub fn one_source_or_refusal()
    ensures { (main : Option (List ℕ)) (text : List ℕ) (a b : Result Elaborated Refusal)
        → Elaborates main text a → Elaborates main text b → SameAnswer SameSource a b }
{
    one_reading();
    texts_are_seen_alike();
    texts_break_the_same_rules();
    one_source_of_a_text();
}

/// The source of each text that the stages up to it pass is one of which words ask one thing: no
/// two of its names have one text, and none of its things is listed twice.
pub fn sources_are_definite()
    ensures { (main : Option (List ℕ)) (text : List ℕ) (x : Elaborated)
        → Elaborates main text (Ok x) → IsDefinite x }
{
    one_reading();
}
