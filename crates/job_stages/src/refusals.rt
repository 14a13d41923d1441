//! Why a job is refused, and the line that says so.

ghost use Rattle.std.specs.Prelude.{◌≡◌, ◌++◌, codes, decimal};
ghost use Rattle.ar_base.specs.Texts.{line};
ghost use Rattle.ar_io.specs.Handing.{Writes};
ghost use Rattle.job_stages.specs.Refusals.{count_text, place_text, line_of, status_of};

use crate::status::Status;
use ar_base::{Count, Place, Text};
use ar_io::{Sink, SinkFailed, write_number, write_text};

/// A file of a job.
#[derive(Clone, Copy)]
pub enum FileKind {
    /// The model.
    Model,
    /// The script.
    Script,
}

/// Why a job is refused.
#[derive(Drop)]
pub enum Refusal {
    /// The words are no job.
    Usage,
    /// The file was not read.
    NotRead(FileKind),
    /// The count passes its limit.
    Size(Count),
    /// The model has no reading, as shows at the place.
    Syntax(Place),
    /// The model breaks the rule of this number at the place.
    Rule(u8, Place),
    /// The line of the script, from 1, is no command.
    NoCommand(u32),
    /// The line of the list, from 1, is no cut.
    NoCut(u32),
    /// The line of the script or the list, from 1, names an event with several ways and not which.
    NeedsWay(u32),
    /// The line of the script or the list, from 1, names no event.
    NoEvent(u32),
    /// A part of the list of dropped events names no event.
    NoDropped,
    /// The path names no observer.
    NoObserver,
    /// The word is no value of the observer's type, or is missing where it is not Boolean.
    NoValue,
    /// The system breaks the rule of this number of the static fragment, as the thing of this path shows.
    Outside(u8, Text),
}

// The usage line.
const USAGE: &str =
    "usage: altarica COMMAND FILES [--main B] [--observer O] [--value V] [--nodes N] [--drop EVENTS]\n";

impl Refusal {
    /// The status with which the refusal ends a job.
    pub fn status(&self) -> Status
        ensures { result ≡ status_of self.now }
    {
        match self {
            Refusal::Usage => Status::Usage,
            Refusal::NotRead(_) => Status::Read,
            Refusal::Size(_) => Status::Size,
            Refusal::Syntax(_) => Status::Syntax,
            Refusal::Rule(_, _) => Status::Rule,
            Refusal::NoCommand(_) | Refusal::NoCut(_) => Status::Script,
            Refusal::NeedsWay(_) | Refusal::NoEvent(_) => Status::Script,
            Refusal::NoDropped | Refusal::NoObserver | Refusal::NoValue => Status::Script,
            Refusal::Outside(_, _) => Status::Outside,
        }
    }

    /// Writes the line that tells it. Takes no memory.
    pub fn put<K: Sink>(&self, out: &mut K) -> Result<(), SinkFailed>
        ensures { Writes (K.state out.old) (K.state out.new) (line_of self.now) result }
    {
        match self {
            Refusal::Usage => write_text(out, USAGE),
            Refusal::NotRead(kind) => write_text(out, not_read_line(*kind)),
            Refusal::Size(count) => put_size(out, *count),
            Refusal::Syntax(place) => put_syntax(out, *place),
            Refusal::Rule(rule, place) => put_rule(out, *rule, *place),
            Refusal::NoCommand(number) => put_script_line(out, *number, " is no command"),
            Refusal::NoCut(number) => put_script_line(out, *number, " is no cut"),
            Refusal::NeedsWay(number) => put_script_line(out, *number, " needs a way"),
            Refusal::NoEvent(number) => put_script_line(out, *number, " names no event"),
            Refusal::NoDropped => write_text(out, "script: no event\n"),
            Refusal::NoObserver => write_text(out, "script: no observer\n"),
            Refusal::NoValue => write_text(out, "script: no value\n"),
            Refusal::Outside(rule, path) => put_outside(out, *rule, path.as_str()),
        }
    }
}

// The line of a file that was not read.
fn not_read_line(kind: FileKind) -> &'static str
    ensures { result.now ≡ line_of (Refusal.NotRead kind) }
{
    match kind {
        FileKind::Model => "read: model\n",
        FileKind::Script => "read: script\n",
    }
}

// Writes a place, and the end of the line.
fn put_place<K: Sink>(out: &mut K, place: Place) -> Result<(), SinkFailed>
    ensures { Writes (K.state out.old) (K.state out.new) (line (place_text place)) result }
{
    write_number(out, place.line)?;
    write_text(out, ":")?;
    write_number(out, place.column)?;
    write_text(out, "\n")
}

// What is counted, as a line names it.
fn count_text(count: Count) -> &'static str
    ensures { result.now ≡ count_text count }
{
    match count {
        Count::ModelBytes => "model bytes",
        Count::ScriptBytes => "script bytes",
        Count::Nesting => "nesting",
        Count::Depth => "depth",
        Count::Units => "units",
        Count::Variables => "variables",
        Count::Events => "events",
        Count::TreeNodes => "tree nodes",
        Count::Ways => "ways",
        Count::WayParts => "way parts",
        Count::ExpressionNodes => "expression nodes",
        Count::Gates => "gates",
        Count::CutLines => "cut lines",
    }
}

// Writes that a count passes its limit.
fn put_size<K: Sink>(out: &mut K, count: Count) -> Result<(), SinkFailed>
    ensures { Writes (K.state out.old) (K.state out.new) (line_of (Refusal.Size count)) result }
{
    write_text(out, "size: ")?;
    write_text(out, count_text(count))?;
    write_text(out, " ")?;
    write_number(out, count.limit())?;
    write_text(out, "\n")
}

// Writes where the model has no reading.
fn put_syntax<K: Sink>(out: &mut K, place: Place) -> Result<(), SinkFailed>
    ensures { Writes (K.state out.old) (K.state out.new) (line_of (Refusal.Syntax place)) result }
{
    write_text(out, "syntax: ")?;
    put_place(out, place)
}

// Writes that the model breaks a rule.
fn put_rule<K: Sink>(out: &mut K, rule: u8, place: Place) -> Result<(), SinkFailed>
    ensures { Writes (K.state out.old) (K.state out.new)
        (line_of (Refusal.Rule rule place)) result }
{
    write_text(out, "rule: L")?;
    write_number(out, u32::from(rule))?;
    write_text(out, " at ")?;
    put_place(out, place)
}

// Writes that the system breaks a rule of the static fragment.
fn put_outside<K: Sink>(out: &mut K, rule: u8, path: &str) -> Result<(), SinkFailed>
    ensures { Writes (K.state out.old) (K.state out.new)
        (line_of (Refusal.Outside rule path.now)) result }
{
    write_text(out, "outside: S")?;
    write_number(out, u32::from(rule))?;
    write_text(out, " at ")?;
    write_text(out, path)?;
    write_text(out, "\n")
}

// Writes what is wrong with a line of the script.
fn put_script_line<K: Sink>(out: &mut K, number: u32, wrong: &str) -> Result<(), SinkFailed>
    ensures { Writes (K.state out.old) (K.state out.new)
        (line (codes "script: line " ++ (decimal number ++ wrong.now))) result }
{
    write_text(out, "script: line ")?;
    write_number(out, number)?;
    write_text(out, wrong)?;
    write_text(out, "\n")
}
