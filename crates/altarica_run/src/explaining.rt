//! The text of `explain`.

ghost use Rattle.std.specs.Prelude.{◌≡◌};
ghost use Rattle.run_words.specs.declared.jobs.Asked.{Asked};
ghost use Rattle.run_words.specs.declared.verbs.Verb.TheVariants.{Explain as ExplainAsked};
ghost use Rattle.job_stages.specs.Passing.{IsScripted};
ghost use Rattle.job_stages.specs.Stages.{Ready};
ghost use Rattle.job_stages.specs.Telling.{IsWritten, status_explained};
ghost use Rattle.job_stages.specs.Tells.{Tells};

use ar_io::Sink;
use gts_core::Gts;
use gts_core::laws::one_system;
use job_inputs::Command;
use job_stages::Status;
use reason_text::laws::reasons_of_the_source;
use reason_text::print_reasons;
use replayer::laws::settles_of_the_source;
use replayer::{ReplayFault, settle};
use std::alloc::Global;

/// Writes why the flows have their values where the run of the script ends, or the line of the fault in
/// which it ends. Where an observer is shown, the flows are those of its cone.
pub(crate) fn write_reasons<K: Sink>(
    alloc: Global,
    system: &Gts,
    commands: &[Command],
    shown: Option<u32>,
    out: &mut K,
) -> Result<Status, ReplayFault>
    requires ready { (w : Ready) × IsScripted w system.now commands.now shown }
    ensures { (asked : Asked) (w : Ready) → IsScripted w system.now commands.now shown
        → asked.job.command ≡ ExplainAsked
        → IsWritten (Tells asked w) (K.state out.old) (K.state out.new) (status_explained result) }
{
    // Where the runs of the flat system settle, and why its flows have their values, are those of its
    // source.
    one_system();
    settles_of_the_source();
    reasons_of_the_source();
    match settle(alloc, system, commands, out)? {
        Some(values) => {
            print_reasons(alloc, system, &values, shown, out)?;
            Ok(Status::Done)
        }
        None => Ok(Status::Fault),
    }
}
