//! Pieces of a text that go to a sink one behind the other.

ghost use Rattle.std.specs.Prelude.{◌≡◌, if◌then◌else◌, slice_get};
ghost use Rattle.ar_io.specs.Handing.{Writes};
ghost use Rattle.ar_base.specs.Texts.{text_at};
ghost use Rattle.ar_meaning.specs.ValueTexts.{value_text};
ghost use Rattle.gts_core.specs.Printed.{event_path, path_at, sign, relation_text};

use crate::system::GtsParts;
use ar_io::{Sink, SinkFailed, text_at, write_signed, write_text};
use domains::Value;
use typed_expr::Relation;

/// The path of the variable of this number; empty where there is none.
pub fn variable_path(parts: &GtsParts, n: u32) -> &str
    ensures { result.now ≡ path_at parts.now n }
{
    match parts.variables.get(n as usize) {
        Some(variable) => variable.path.as_str(),
        None => "",
    }
}

/// The path of the event of this number; empty where there is none.
pub fn event_path(parts: &GtsParts, n: u32) -> &str
    ensures { result.now ≡ event_path (slice_get parts.now.events.items n) }
{
    match parts.events.get(n as usize) {
        Some(event) => event.path.as_str(),
        None => "",
    }
}

// One of two texts.
pub(crate) fn either<'a>(first: bool, one: &'a str, other: &'a str) -> &'a str
    ensures { result.now ≡ (if first then one.now else other.now) }
{
    if first { one } else { other }
}

// What stands before a part of a sum.
pub(crate) fn sign(first: bool, plus: bool) -> &'static str
    ensures { result.now ≡ sign first plus }
{
    match (first, plus) {
        (true, true) => "",
        (true, false) => "- ",
        (false, true) => " + ",
        (false, false) => " - ",
    }
}

// The relation between the sides of a comparison.
pub(crate) fn relation_text(relation: Relation) -> &'static str
    ensures { result.now ≡ relation_text relation }
{
    match relation {
        Relation::Equal => " == ",
        Relation::Differs => " != ",
        Relation::Less => " < ",
        Relation::AtMost => " <= ",
        Relation::More => " > ",
        Relation::AtLeast => " >= ",
    }
}

/// Writes a value, a symbol by its name.
pub fn write_value<K: Sink>(out: &mut K, parts: &GtsParts, v: Value) -> Result<(), SinkFailed>
    ensures { Writes (K.state out.old) (K.state out.new) (value_text parts.now.symbols.items v)
        result }
{
    match v {
        Value::Truth(true) => write_text(out, "true"),
        Value::Truth(false) => write_text(out, "false"),
        Value::Whole(n) => write_signed(out, n),
        Value::Symbol(k) => write_text(out, text_at(&parts.symbols, k)),
    }
}
