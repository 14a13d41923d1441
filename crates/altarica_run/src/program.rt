//! The one call of the program, and how a job is done in it.

ghost use Rattle.std.specs.Prelude.{◌≡◌, drop, map};
ghost use Rattle.std.specs.Process.{exit_status};
ghost use Rattle.std.specs.String.{string_bytes};
ghost use Rattle.ar_base.specs.TextsInside.{bytes_of_all};
ghost use Rattle.ar_io.specs.Outside.{Rose};
ghost use Rattle.altarica_run.specs.Answers.{Answers};
ghost use Rattle.altarica_run.specs.Doing.{AreGiven, AnswersFor, AnswersReading, AnswersWords};
ghost use Rattle.altarica_run.specs.Reading.{AnswersBy};
ghost use Rattle.job_stages.specs.Jobs.{LoadsNothing};
ghost use Rattle.job_stages.specs.Logs.{Grew};
ghost use Rattle.job_stages.specs.Numbers.{number_of};
ghost use Rattle.job_stages.specs.declared.status.Status.{Status};

use crate::commands::run;
use ar_io::{Beginning, Gathered, Shelf, Sink, room};
use job_stages::{Status, Stop, Texts, asked_of, job_texts, refuse, written};
use run_words::Asked;
use std::alloc::Global;
use std::marker::Brand;
use std::process::ExitCode;

/// Does the job of the words behind the first, which is the program's name, and ends the process with
/// the number of its status.
pub fn exit<H: Shelf, K: Sink>(
    alloc: Global,
    args: &[String],
    shelf: &mut H,
    out: &mut K,
) -> ExitCode
    ensures { (status : Status) × (exit_status result ≡ number_of status)
        × Answers (map string_bytes (drop 1 args.now))
        (H.holds shelf.old) (H.holds shelf.new) (H.faults shelf.old) (H.faults shelf.new)
        (K.state out.old).bytes (K.state out.new).bytes
        (K.state out.old).faults (K.state out.new).faults status
        × AnswersBy (map string_bytes (drop 1 args.now)) (H.loads shelf.old) (H.loads shelf.new)
        (K.state out.old) (K.state out.new) status }
{
    let status = altarica(alloc, behind_first(args), shelf, out);
    ExitCode::from(status.number())
}

// The words behind the first.
fn behind_first(args: &[String]) -> &[String]
    ensures { result.now ≡ drop 1 args.now }
{
    if args.is_empty() {
        return args;
    }
    &args[1..]
}

/// Does the job of the words, which stand behind the program's name: loads its files from the shelf,
/// and writes its text, or the line that says why there is none, to the sink.
///
/// - `told`: What the call answers over files of which the shelf tells something.
/// - `loads`: What it answers by the loads that the shelf logs: it loads the job's files in their order and no
///   others, up to the first that did not come, and its text and status are those of what came.
/// - `untouched`: Where the words ask for no file the shelf is as it was.
pub fn altarica<H: Shelf, K: Sink>(
    alloc: Global,
    words: &[String],
    shelf: &mut H,
    out: &mut K,
) -> Status
    ensures told { Answers (map string_bytes words.now)
        (H.holds shelf.old) (H.holds shelf.new) (H.faults shelf.old) (H.faults shelf.new)
        (K.state out.old).bytes (K.state out.new).bytes
        (K.state out.old).faults (K.state out.new).faults result }
    ensures loads { AnswersBy (map string_bytes words.now) (H.loads shelf.old) (H.loads shelf.new)
        (K.state out.old) (K.state out.new) result }
    ensures untouched { LoadsNothing (map string_bytes words.now) → shelf.new ≡ shelf.old }
{
    match do_job(alloc, words, shelf, out) {
        Ok(status) => status,
        Err(stop) => match stop {
            Stop::Refused(refusal) => refuse(&refusal, out),
            Stop::Memory => Status::Memory,
        },
    }
}

// Does the job of the words up to its text. Where they ask for no file, the shelf is as it was.
fn do_job<H: Shelf, K: Sink>(
    alloc: Global,
    words: &[String],
    shelf: &mut H,
    out: &mut K,
) -> Result<Status, Stop>
    ensures untouched { LoadsNothing (bytes_of_all words.now) → shelf.new ≡ shelf.old }
    ensures words { AnswersWords (H.holds shelf.old)
        (λ name. Rose (H.faults shelf.old name) (H.faults shelf.new name))
        (bytes_of_all words.now) (K.state out.old) (K.state out.new) result }
    ensures loads { Grew (H.loads shelf.old) (H.loads shelf.new)
        (AnswersReading (bytes_of_all words.now) (K.state out.old) (K.state out.new) result) }
{
    let asked = asked_of(alloc, words)?;
    let texts = job_texts(alloc, shelf, &asked)?;
    run_gathered::<Brand, K>(alloc, &asked, texts, out)
}

// Does what the command asks, with its text gathered. The room for that is taken before the first byte
// is written; where it is refused, nothing is.
fn run_gathered<S: Beginning, K: Sink>(
    alloc: Global,
    asked: &Asked,
    texts: Texts,
    out: &mut K,
) -> Result<Status, Stop>
    requires begins { S.start ≡ K.state out.old }
    requires given { AreGiven asked.now texts }
    ensures { AnswersFor asked.now texts (K.state out.old) (K.state out.new) result }
{
    let mut room = room(alloc)?;
    let mut gathered: Gathered<'_, S, K> = Gathered::new(&mut room, out);
    let answer = run(alloc, asked, texts, &mut gathered);
    let handed = gathered.finish();
    let status = answer?;
    Ok(written(status, handed))
}
