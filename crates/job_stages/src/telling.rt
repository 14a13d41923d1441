//! The statuses of texts, the line of a refusal, and the text of `check`.

ghost use Rattle.std.specs.Prelude.{◌≡◌, ◌++◌, decimal, length};
ghost use Rattle.ar_io.specs.Handing.{Writes};
ghost use Rattle.job_stages.specs.Refusals.{line_of, status_of};
ghost use Rattle.job_stages.specs.Telling.{IsWritten, status_written, status_replayed, status_printed, status_explained};
ghost use Rattle.job_stages.specs.Tells.{counts_line};

use crate::refusals::Refusal;
use crate::status::Status;
use ar_io::{Sink, SinkFailed, write_count, write_text};
use cut_text::PrintFault;
use gts_core::Gts;
use replayer::{End, ReplayFault};

/// Writes the line of a refusal.
pub fn refuse<K: Sink>(refusal: &Refusal, out: &mut K) -> Status
    ensures { IsWritten (λ text ends. (text ≡ line_of refusal.now) × (ends ≡ status_of refusal.now))
        (K.state out.old) (K.state out.new) result }
{
    let whole = refusal.status();
    written(whole, refusal.put(out))
}

/// Writes how many units, variables, events and observers the system has.
pub fn write_counts<K: Sink>(system: &Gts, out: &mut K) -> Result<(), SinkFailed>
    ensures { Writes (K.state out.old) (K.state out.new)
        (counts_line (length system.now.units.items) (length system.now.variables.items)
        (length system.now.events.items) (length system.now.observers.items)) result }
{
    let parts = system.parts();
    put_many(out, "ok units ", parts.units.len())?;
    put_many(out, " variables ", parts.variables.len())?;
    put_many(out, " events ", parts.events.len())?;
    put_many(out, " observers ", parts.observers.len())?;
    write_text(out, "\n")
}

// Writes how many there are of what is named.
fn put_many<K: Sink>(out: &mut K, named: &str, count: usize) -> Result<(), SinkFailed>
    ensures { Writes (K.state out.old) (K.state out.new) (named.now ++ decimal count) result }
{
    write_text(out, named)?;
    write_count(out, count)
}

/// The status of a text that was written, or was not.
pub fn written(whole: Status, answer: Result<(), SinkFailed>) -> Status
    ensures { result ≡ status_written whole answer }
{
    match answer {
        Ok(()) => whole,
        Err(_) => Status::Write,
    }
}

/// The status of a replay.
pub fn replayed(answer: Result<End, ReplayFault>) -> Status
    ensures { result ≡ status_replayed answer }
{
    match answer {
        Ok(End::Done) => Status::Done,
        Ok(End::Fault) => Status::Fault,
        Err(ReplayFault::Write) => Status::Write,
        Err(ReplayFault::Memory) => Status::Memory,
    }
}

/// The status of a text that was broken off, or was not.
pub fn printed(answer: Result<Status, PrintFault>) -> Status
    ensures { result ≡ status_printed answer }
{
    match answer {
        Ok(status) => status,
        Err(PrintFault::Write) => Status::Write,
        Err(PrintFault::Memory) => Status::Memory,
    }
}

/// The status of an explanation that was broken off, or was not.
pub fn explained(answer: Result<Status, ReplayFault>) -> Status
    ensures { result ≡ status_explained answer }
{
    match answer {
        Ok(status) => status,
        Err(ReplayFault::Write) => Status::Write,
        Err(ReplayFault::Memory) => Status::Memory,
    }
}
