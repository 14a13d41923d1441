//! The way back.

ghost use Rattle.std.specs.Prelude.{◌≡◌, length};
ghost use Rattle.gts_core.specs.Sound.{IsSound};
ghost use Rattle.flow_changes.specs.Restoring.{decoded_at, restored, marks_turned};

use crate::changes::Changes;
use crate::codes::value_of;
use ar_base::VarId;
use domains::Value;
use gts_core::GtsParts;

/// Writes the old values and marks back. Takes no memory.
pub fn restore(parts: &GtsParts, values: &mut Vec<Value>, known: &mut Vec<bool>, changes: &Changes)
    requires sound { IsSound parts.now }
    requires long { length changes.now.variables.items ≡ length changes.now.old.items }
    ensures values { values.new.items
        ≡ restored parts.now values.old.items changes.now.variables.items changes.now.old.items }
    ensures known { known.new.items ≡ marks_turned known.old.items changes.now.turned.items }
{
    put(parts, values, &changes.variables, &changes.old);
    turn(known, &changes.turned);
}

// The value that a number stands for at a variable, false where there is none.
fn value_at(parts: &GtsParts, variable: VarId, code: u32) -> Value
    requires { IsSound parts.now }
    ensures { result ≡ decoded_at parts.now variable.n code }
{
    match parts.variables.get(variable.n as usize) {
        Some(one) => value_of(&one.domain, code),
        None => Value::Truth(false),
    }
}

// Writes the values of these codes at these variables.
fn put(parts: &GtsParts, values: &mut Vec<Value>, variables: &[VarId], codes: &[u32])
    requires sound { IsSound parts.now }
    requires long { length variables.now ≡ length codes.now }
    ensures { values.new.items ≡ restored parts.now values.old.items variables.now codes.now }
{
    for (place, variable) in variables.iter().enumerate() {
        let n = variable.n as usize;
        let value = value_at(parts, *variable, codes[place]);
        if n < values.len() {
            values[n] = value;
        }
    }
}

// Turns the marks of these variables round.
fn turn(marks: &mut Vec<bool>, variables: &[VarId])
    ensures { marks.new.items ≡ marks_turned marks.old.items variables.now }
{
    for variable in variables {
        let n = variable.n as usize;
        if n < marks.len() {
            marks[n] = !marks[n];
        }
    }
}
