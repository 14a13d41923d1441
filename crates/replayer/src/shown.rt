//! The lines of variables and observers. A step's lines look at the variables that changed, and at the observers that name one
//! of them, and at no others.

ghost use Rattle.std.specs.Prelude.{◌≡◌, ◌<◌, ◌^◌, ◌++◌, codes, length, Some};
ghost use Rattle.ar_base.specs.Texts.{line};
ghost use Rattle.ar_io.specs.Handing.{Writes};
ghost use Rattle.ar_meaning.specs.TraceText.{variable_line, observer_line, lines_from};
ghost use Rattle.ar_meaning.specs.ValueTexts.{value_text};
ghost use Rattle.gts_core.specs.Readings.{IsTotal, valuation_at};
ghost use Rattle.gts_core.specs.Sound.{IsSound};
ghost use Rattle.gts_flatten.specs.Flat.{naming_of_parts};
ghost use Rattle.flow_changes.specs.Changes.{changed_numbers, AreChanges};
ghost use Rattle.replayer.specs.Observing.{AreTouched};
ghost use Rattle.replayer.specs.Printing.{values_text, change_text, observer_lines, observer_value, numbered_texts, changes_text};

use ar_base::VarId;
use ar_io::{Sink, SinkFailed, write_text};
use domains::Value;
use gts_core::{GtsParts, Observer, value_at, value_in, write_value};
use text_pieces::pieces::{observer_path, variable_path};

/// Writes the lines of all variables and observers.
pub(crate) fn all_lines<K: Sink>(
    out: &mut K,
    parts: &GtsParts,
    values: &[Value],
) -> Result<(), SinkFailed>
    requires sound { IsSound parts.now }
    requires long { length values.now ≡ length parts.now.variables.items }
    ensures { Writes (K.state out.old) (K.state out.new) (values_text parts.now values.now) result }
{
    variable_lines(out, parts, values)?;
    observer_lines(out, parts, values, &parts.observers)
}

/// Writes the lines of those variables and observers whose value changed: of these variables, and of those of these observers,
/// which name one of them, whose value is another one.
pub(crate) fn changed_lines<K: Sink>(
    out: &mut K,
    parts: &GtsParts,
    old: &[Value],
    new: &[Value],
    changed: &[VarId],
    touched: &[u32],
) -> Result<(), SinkFailed>
    requires sound { IsSound parts.now }
    requires old { IsTotal parts.now old.now }
    requires new { IsTotal parts.now new.now }
    requires changed { AreChanges old.now new.now changed.now }
    requires touched { AreTouched parts.now changed.now touched.now }
    ensures { Writes (K.state out.old) (K.state out.new) (changes_text parts.now old.now new.now)
        result }
{
    variable_changes(out, parts, new, changed)?;
    observer_changes(out, parts, old, new, touched)
}

// The lines of all variables.
fn variable_lines<K: Sink>(
    out: &mut K,
    parts: &GtsParts,
    values: &[Value],
) -> Result<(), SinkFailed>
    requires { length values.now < 2 ^ 32 }
    ensures { Writes (K.state out.old) (K.state out.new)
        (lines_from (variable_line (naming_of_parts parts.now)) 0 values.now) result }
{
    let mut number = 0;
    for v in values {
        variable_line(out, parts, number, *v)?;
        number += 1;
    }
    Ok(())
}

// The lines of these variables.
fn variable_changes<K: Sink>(
    out: &mut K,
    parts: &GtsParts,
    new: &[Value],
    changed: &[VarId],
) -> Result<(), SinkFailed>
    ensures { Writes (K.state out.old) (K.state out.new)
        (numbered_texts (λ n. variable_line (naming_of_parts parts.now) n (valuation_at new.now n))
        (changed_numbers changed.now)) result }
{
    for variable in changed {
        variable_line(out, parts, variable.n, value_at(new, variable.n as usize))?;
    }
    Ok(())
}

// The line of a variable.
fn variable_line<K: Sink>(out: &mut K, parts: &GtsParts, n: u32, v: Value) -> Result<(), SinkFailed>
    ensures { Writes (K.state out.old) (K.state out.new)
        (variable_line (naming_of_parts parts.now) n v) result }
{
    write_text(out, "  ")?;
    named_value(out, parts, variable_path(parts, n), v)?;
    write_text(out, "\n")
}

// A name and its value.
fn named_value<K: Sink>(
    out: &mut K,
    parts: &GtsParts,
    name: &str,
    v: Value,
) -> Result<(), SinkFailed>
    ensures { Writes (K.state out.old) (K.state out.new)
        (name.now ++ (codes " = " ++ value_text parts.now.symbols.items v)) result }
{
    write_text(out, name)?;
    write_text(out, " = ")?;
    write_value(out, parts, v)
}

// The lines of all observers.
fn observer_lines<K: Sink>(
    out: &mut K,
    parts: &GtsParts,
    values: &[Value],
    all: &[Observer],
) -> Result<(), SinkFailed>
    requires { length all.now < 2 ^ 32 }
    ensures { Writes (K.state out.old) (K.state out.new)
        (observer_lines parts.now values.now 0 all.now) result }
{
    let mut number = 0;
    for observer in all {
        observer_line(out, parts, number, value_in(values, &observer.value))?;
        number += 1;
    }
    Ok(())
}

// The lines of those of these observers whose value changed.
fn observer_changes<K: Sink>(
    out: &mut K,
    parts: &GtsParts,
    old: &[Value],
    new: &[Value],
    touched: &[u32],
) -> Result<(), SinkFailed>
    ensures { Writes (K.state out.old) (K.state out.new)
        (numbered_texts (λ n. change_text (observer_line (naming_of_parts parts.now)) n
        (observer_value parts.now old.now n) (observer_value parts.now new.now n)) touched.now)
        result }
{
    for number in touched {
        observer_change(out, parts, old, new, *number)?;
    }
    Ok(())
}

// The line of an observer, where its value changed.
fn observer_change<K: Sink>(
    out: &mut K,
    parts: &GtsParts,
    old: &[Value],
    new: &[Value],
    n: u32,
) -> Result<(), SinkFailed>
    ensures { Writes (K.state out.old) (K.state out.new)
        (change_text (observer_line (naming_of_parts parts.now)) n
        (observer_value parts.now old.now n) (observer_value parts.now new.now n)) result }
{
    let was = observer_value(parts, old, n);
    let is = observer_value(parts, new, n);
    if was == is {
        write_text(out, "")
    } else {
        observer_line(out, parts, n, is)
    }
}

// The value of the observer of this number.
fn observer_value(parts: &GtsParts, values: &[Value], n: u32) -> Value
    ensures { result ≡ observer_value parts.now values.now n }
{
    match parts.observers.get(n as usize) {
        Some(observer) => value_in(values, &observer.value),
        None => Value::Truth(false),
    }
}

// The line of an observer.
fn observer_line<K: Sink>(out: &mut K, parts: &GtsParts, n: u32, v: Value) -> Result<(), SinkFailed>
    ensures { Writes (K.state out.old) (K.state out.new)
        (observer_line (naming_of_parts parts.now) n v) result }
{
    write_text(out, "  observer ")?;
    named_value(out, parts, observer_path(parts, n), v)?;
    write_text(out, "\n")
}
