//! Laws of checks of lists of cuts, and of explanations. Each function has an empty body.

ghost use Rattle.std.specs.Prelude.{◌≡◌};
ghost use Rattle.run_words.specs.declared.jobs.Asked.{Asked};
ghost use Rattle.run_words.specs.declared.verbs.Verb.TheVariants.{CheckCuts, Explain};
ghost use Rattle.run_words.specs.Jobs.{IsAsked};
ghost use Rattle.altarica_run.specs.Findings.{IsCheckOf, IsExplanation};
ghost use Rattle.altarica_run.specs.Follows.{Call, Gave};
ghost use Rattle.job_stages.specs.declared.status.Status.TheVariants as status;

use crate::laws::one_job;

/// What a check of a list and an explanation find holds in the source.
///
/// - `checks_are_whole`: A check of a list of cuts that ends well says `yes` exactly where the sets of the
///   lines are the cuts of the observer's value, each once, and each line is an order that ends with the value.
///   Its lines `missing` have an order of each cut that the list lacks, once, and nothing else. All these
///   orders replay in the whole model, dropped events included.
/// - `explanations_hold`: In an explanation that ends well the reason of each flow suffices: from the facts of
///   the variables that it rests on the assignment that it names is reached and yields the flow's value. The
///   flows among these variables have smaller rounds.
pub fn findings_hold()
    ensures checks_are_whole { (c : Call) (asked : Asked) → Gave c status.Done → IsAsked c.words asked
        → asked.job.command ≡ CheckCuts → IsCheckOf c asked }
    ensures explanations_hold { (c : Call) (asked : Asked) → Gave c status.Done → IsAsked c.words asked
        → asked.job.command ≡ Explain → IsExplanation c asked }
{
    one_job();
}
