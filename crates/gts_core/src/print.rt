//! The text of a flat system.

ghost use Rattle.std.specs.Prelude.{true, ◌<◌, ◌^◌, length, codes, map, slice_get};
ghost use Rattle.ar_base.specs.Numbers.{WayId};
ghost use Rattle.ar_io.specs.Handing.{Writes};
ghost use Rattle.std.specs.List.{concat};
ghost use Rattle.ar_base.specs.Texts.{text_at, separated};
ghost use Rattle.gts_core.specs.Printed.{domain_text, flat_variable_line, condition_text, set_text, action_text, event_path, label_of, label_found, part_text, body_text, line_found, event_lines, assert_lines, flat_observer_line};

use crate::expressions::expression;
use crate::pieces::{either, event_path, variable_path, write_value};
use crate::system::{Assign, Event, GtsParts, Observer, Variable, Way, WayBody};
use ar_base::{VarId, WayId};
use ar_io::{Sink, SinkFailed, text_at, write_number, write_signed, write_text};
use domains::Domain;
use typed_expr::Expr;

// The lines for the variables.
pub(crate) fn variables<K: Sink>(
    out: &mut K,
    parts: &GtsParts,
    all: &[Variable],
) -> Result<(), SinkFailed>
    ensures { Writes (K.state out.old) (K.state out.new)
        (concat (map (flat_variable_line parts.now) all.now)) result }
{
    for x in all {
        write_text(out, either(x.is_state, "state ", "flow "))?;
        write_text(out, x.path.as_str())?;
        write_text(out, " ")?;
        domain(out, parts, &x.domain)?;
        write_text(out, " = ")?;
        write_value(out, parts, x.value)?;
        write_text(out, "\n")?;
    }
    Ok(())
}

// A domain.
fn domain<K: Sink>(out: &mut K, parts: &GtsParts, range: &Domain) -> Result<(), SinkFailed>
    ensures { Writes (K.state out.old) (K.state out.new) (domain_text parts.now range.now) result }
{
    match range {
        Domain::Boolean => write_text(out, "Boolean"),
        Domain::Symbols(symbols) => {
            write_text(out, "{")?;
            symbol_names(out, parts, symbols)?;
            write_text(out, "}")
        }
        Domain::Range(low, high) => {
            write_text(out, "[")?;
            write_signed(out, *low)?;
            write_text(out, ", ")?;
            write_signed(out, *high)?;
            write_text(out, "]")
        }
    }
}

// The names of symbols.
fn symbol_names<K: Sink>(out: &mut K, parts: &GtsParts, symbols: &[u32]) -> Result<(), SinkFailed>
    ensures { Writes (K.state out.old) (K.state out.new)
        (separated true (codes ", ") (map (text_at parts.now.symbols.items) symbols.now)) result }
{
    let mut first = true;
    for symbol in symbols {
        write_text(out, either(first, "", ", "))?;
        write_text(out, text_at(&parts.symbols, *symbol))?;
        first = false;
    }
    Ok(())
}

// The lines for the ways of all events.
pub(crate) fn events<K: Sink>(
    out: &mut K,
    parts: &GtsParts,
    all: &[Event],
) -> Result<(), SinkFailed>
    ensures { Writes (K.state out.old) (K.state out.new)
        (concat (map (event_lines parts.now) all.now)) result }
{
    for event in all {
        ways(out, parts, event.hidden, &event.ways)?;
    }
    Ok(())
}

// The lines for the ways of one event.
fn ways<K: Sink>(
    out: &mut K,
    parts: &GtsParts,
    hidden: bool,
    all: &[WayId],
) -> Result<(), SinkFailed>
    ensures { Writes (K.state out.old) (K.state out.new)
        (concat (map (λ (w : WayId). line_found parts.now hidden
        (slice_get parts.now.ways.items w.n)) all.now)) result }
{
    for id in all {
        way_at(out, parts, hidden, id.n)?;
    }
    Ok(())
}

// The line for the way of this number.
fn way_at<K: Sink>(out: &mut K, parts: &GtsParts, hidden: bool, n: u32) -> Result<(), SinkFailed>
    ensures { Writes (K.state out.old) (K.state out.new)
        (line_found parts.now hidden (slice_get parts.now.ways.items n)) result }
{
    match parts.ways.get(n as usize) {
        Some(way) => {
            write_text(out, either(hidden, "hidden ", ""))?;
            write_text(out, "way ")?;
            label(out, parts, way)?;
            write_text(out, ": ")?;
            body(out, parts, &way.body)?;
            write_text(out, "\n")
        }
        None => write_text(out, ""),
    }
}

// The label of a way.
fn label<K: Sink>(out: &mut K, parts: &GtsParts, way: &Way) -> Result<(), SinkFailed>
    ensures { Writes (K.state out.old) (K.state out.new) (label_of parts.now way.now) result }
{
    write_text(out, event_path(parts, way.event.n))?;
    write_text(out, "#")?;
    write_number(out, way.number)
}

// What a way does.
fn body<K: Sink>(out: &mut K, parts: &GtsParts, body: &WayBody) -> Result<(), SinkFailed>
    ensures { Writes (K.state out.old) (K.state out.new) (body_text parts.now body.now) result }
{
    match body {
        WayBody::Local(guard, assigns) => {
            expression(out, parts, guard)?;
            write_text(out, " -> ")?;
            action(out, parts, assigns)
        }
        WayBody::Sync(all) => way_parts(out, parts, all),
    }
}

// The parts of a synchronised way.
fn way_parts<K: Sink>(
    out: &mut K,
    parts: &GtsParts,
    all: &[(bool, WayId)],
) -> Result<(), SinkFailed>
    ensures { Writes (K.state out.old) (K.state out.new)
        (separated true (codes " & ") (map (part_text parts.now) all.now)) result }
{
    let mut first = true;
    for part in all {
        write_text(out, either(first, "", " & "))?;
        write_text(out, either(part.0, "!", "?"))?;
        label_at(out, parts, part.1.n)?;
        first = false;
    }
    Ok(())
}

// The label of the way of this number.
fn label_at<K: Sink>(out: &mut K, parts: &GtsParts, n: u32) -> Result<(), SinkFailed>
    ensures { Writes (K.state out.old) (K.state out.new)
        (label_found parts.now (slice_get parts.now.ways.items n)) result }
{
    match parts.ways.get(n as usize) {
        Some(way) => label(out, parts, way),
        None => write_text(out, ""),
    }
}

// The assignments of an action.
fn action<K: Sink>(out: &mut K, parts: &GtsParts, assigns: &[Assign]) -> Result<(), SinkFailed>
    ensures { Writes (K.state out.old) (K.state out.new) (action_text parts.now assigns.now)
        result }
{
    if assigns.is_empty() {
        write_text(out, "skip")
    } else {
        sets(out, parts, assigns)
    }
}

// Assignments.
fn sets<K: Sink>(out: &mut K, parts: &GtsParts, assigns: &[Assign]) -> Result<(), SinkFailed>
    ensures { Writes (K.state out.old) (K.state out.new)
        (separated true (codes ", ") (map (set_text parts.now) assigns.now)) result }
{
    let mut first = true;
    for assign in assigns {
        write_text(out, either(first, "", ", "))?;
        set(out, parts, assign)?;
        first = false;
    }
    Ok(())
}

// An assignment.
fn set<K: Sink>(out: &mut K, parts: &GtsParts, assign: &Assign) -> Result<(), SinkFailed>
    ensures { Writes (K.state out.old) (K.state out.new) (set_text parts.now assign.now) result }
{
    write_text(out, variable_path(parts, assign.target.n))?;
    write_text(out, " := ")?;
    expression(out, parts, &assign.value)?;
    conditions(out, parts, &assign.when)
}

// The conditions of an assignment.
fn conditions<K: Sink>(
    out: &mut K,
    parts: &GtsParts,
    all: &[(Expr<VarId>, bool)],
) -> Result<(), SinkFailed>
    ensures { Writes (K.state out.old) (K.state out.new)
        (concat (map (condition_text parts.now) all.now)) result }
{
    for condition in all {
        write_text(out, either(condition.1, " when ", " unless "))?;
        expression(out, parts, &condition.0)?;
    }
    Ok(())
}

// The lines for the assignments of the assertions.
pub(crate) fn asserts<K: Sink>(
    out: &mut K,
    parts: &GtsParts,
    all: &[Assign],
) -> Result<(), SinkFailed>
    requires { length all.now < 2 ^ 32 }
    ensures { Writes (K.state out.old) (K.state out.new) (assert_lines parts.now 0 all.now) result }
{
    let mut number = 0;
    for assign in all {
        number += 1;
        write_text(out, "assert ")?;
        write_number(out, number)?;
        write_text(out, " at ")?;
        write_number(out, assign.at.line)?;
        write_text(out, ":")?;
        write_number(out, assign.at.column)?;
        write_text(out, " ")?;
        set(out, parts, assign)?;
        write_text(out, "\n")?;
    }
    Ok(())
}

// The lines for the observers.
pub(crate) fn observers<K: Sink>(
    out: &mut K,
    parts: &GtsParts,
    all: &[Observer],
) -> Result<(), SinkFailed>
    ensures { Writes (K.state out.old) (K.state out.new)
        (concat (map (flat_observer_line parts.now) all.now)) result }
{
    for o in all {
        write_text(out, "observer ")?;
        write_text(out, o.path.as_str())?;
        write_text(out, " = ")?;
        expression(out, parts, &o.value)?;
        write_text(out, "\n")?;
    }
    Ok(())
}
