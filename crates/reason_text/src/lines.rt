//! The lines of reasons.

ghost use Rattle.std.specs.Prelude.{◌≡◌, ◌<◌, false, length, codes};
ghost use Rattle.ar_base.specs.Texts.{separated};
ghost use Rattle.ar_io.specs.Handing.{Writes};
ghost use Rattle.gts_flatten.specs.Flat.{naming_of_parts};
ghost use Rattle.flow_reasons.specs.Answers.{numbers_of, reason_of, reasons_of};
ghost use Rattle.reason_text.specs.Answers.{told_at, told_lines, told_line, HaveAssigns, HasAssign};
ghost use Rattle.reason_text.specs.Texts.{paths_of, from_text, added_text, why_text, reason_line};

use ar_base::{AssignId, VarId};
use ar_io::{Sink, SinkFailed, write_count, write_number, write_text};
use flow_reasons::Reason;
use gts_core::{GtsParts, write_value};
use text_pieces::pieces::{place, variable_path};

// The lines of those of these reasons whose flows are told.
pub(crate) fn told_lines<K: Sink>(
    out: &mut K,
    parts: &GtsParts,
    told: &[bool],
    reasons: &[Reason],
) -> Result<(), SinkFailed>
    requires { HaveAssigns parts.now reasons.now }
    ensures { Writes (K.state out.old) (K.state out.new)
        (told_lines (naming_of_parts parts.now) told.now (reasons_of reasons.now)) result }
{
    for reason in reasons {
        told_line(out, parts, told, reason)?;
    }
    Ok(())
}

// The line of a reason, where its flow is told.
fn told_line<K: Sink>(
    out: &mut K,
    parts: &GtsParts,
    told: &[bool],
    reason: &Reason,
) -> Result<(), SinkFailed>
    requires { HasAssign parts.now reason.now }
    ensures { Writes (K.state out.old) (K.state out.new)
        (told_line (naming_of_parts parts.now) told.now (reason_of reason.now)) result }
{
    if is_told(told, reason.flow.n) {
        reason_line(out, parts, reason)
    } else {
        Ok(())
    }
}

// Whether the flow of this number is told.
fn is_told(told: &[bool], n: u32) -> bool
    ensures { result ≡ told_at told.now n }
{
    match told.get(n as usize) {
        Some(is_told) => *is_told,
        None => false,
    }
}

// The line of a reason.
fn reason_line<K: Sink>(out: &mut K, parts: &GtsParts, reason: &Reason) -> Result<(), SinkFailed>
    requires { HasAssign parts.now reason.now }
    ensures { Writes (K.state out.old) (K.state out.new)
        (reason_line (naming_of_parts parts.now) (reason_of reason.now)) result }
{
    write_text(out, variable_path(parts, reason.flow.n))?;
    write_text(out, " = ")?;
    write_value(out, parts, reason.value)?;
    why(out, parts, reason)?;
    write_text(out, "\n")
}

// Why a flow has its value.
fn why<K: Sink>(out: &mut K, parts: &GtsParts, reason: &Reason) -> Result<(), SinkFailed>
    requires { HasAssign parts.now reason.now }
    ensures { Writes (K.state out.old) (K.state out.new)
        (why_text (naming_of_parts parts.now) (reason_of reason.now).by reason.now.round
        (numbers_of reason.now.rests_on.items)) result }
{
    match reason.by {
        None => write_text(out, " by reset"),
        Some(by) => added(out, parts, by, reason.round, &reason.rests_on),
    }
}

// The round, the assignment, and what the value rests on.
fn added<K: Sink>(
    out: &mut K,
    parts: &GtsParts,
    by: AssignId,
    round: u32,
    rests_on: &[VarId],
) -> Result<(), SinkFailed>
    requires { by.n < length parts.now.assigns.items }
    ensures { Writes (K.state out.old) (K.state out.new)
        (added_text (naming_of_parts parts.now) by.n round (numbers_of rests_on.now)) result }
{
    write_text(out, " round ")?;
    write_number(out, round)?;
    write_text(out, " assignment ")?;
    write_count(out, by.n as usize + 1)?;
    write_text(out, " at ")?;
    place(out, parts.assigns[by.n as usize].at)?;
    from(out, parts, rests_on)
}

// The variables that the value rests on, if there are some.
fn from<K: Sink>(out: &mut K, parts: &GtsParts, variables: &[VarId]) -> Result<(), SinkFailed>
    ensures { Writes (K.state out.old) (K.state out.new)
        (from_text (naming_of_parts parts.now) (numbers_of variables.now)) result }
{
    let Some((first, others)) = variables.split_first() else {
        return Ok(());
    };
    write_text(out, " from ")?;
    write_text(out, variable_path(parts, first.n))?;
    more_paths(out, parts, others)
}

// Further paths.
fn more_paths<K: Sink>(out: &mut K, parts: &GtsParts, variables: &[VarId]) -> Result<(), SinkFailed>
    ensures { Writes (K.state out.old) (K.state out.new)
        (separated false (codes ", ") (paths_of (naming_of_parts parts.now)
        (numbers_of variables.now))) result }
{
    for variable in variables {
        write_text(out, ", ")?;
        write_text(out, variable_path(parts, variable.n))?;
    }
    Ok(())
}
