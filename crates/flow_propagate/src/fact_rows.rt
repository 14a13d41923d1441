//! The values known of each variable, row by row: those of a state alone, and a row with two values.

ghost use Rattle.std.specs.Prelude.{true, false, [], ◌∷◌, if◌then◌else◌, ◌≡◌, length, IfOk};
ghost use Rattle.ar_base.specs.ListsInside.{HasOther};
ghost use Rattle.ar_meaning.specs.Found.{IsAnswer};
ghost use Rattle.flow_propagate.specs.Rows.{Starts, IsTwo};

use ar_base::Memory;
use domains::Value;
use gts_core::Variable;
use std::alloc::Global;

/// The rows of a state before any assignment: its value for a state variable, none for a flow. The error is want of memory.
pub fn first_rows(
    alloc: Global,
    variables: &[Variable],
    values: &[Value],
) -> Result<Vec<Vec<Value>>, Memory>
    requires { length values.now ≡ length variables.now }
    ensures { IfOk result (λ rows. Starts variables.now values.now (length variables.now) rows.items) }
{
    let mut rows = Vec::new(alloc);
    for (place, variable) in variables.iter().enumerate() {
        let row = first_row(alloc, variable.is_state, values[place])?;
        rows.push(row)?;
    }
    Ok(rows)
}

// The row of a variable: its value where it is a state variable, else nothing.
fn first_row(alloc: Global, is_state: bool, v: Value) -> Result<Vec<Value>, Memory>
    ensures { IfOk result (λ row. row.items ≡ (if is_state then v ∷ [] else [])) }
{
    let mut row = Vec::new(alloc);
    if is_state {
        row.push(v)?;
        Ok(row)
    } else {
        Ok(row)
    }
}

/// Whether a variable with this row is a flow with two values. Takes no memory.
pub fn is_two(is_state: bool, row: &[Value]) -> bool
    ensures { IsAnswer result (IsTwo is_state row.now) }
{
    if is_state {
        return false;
    }
    match row.first() {
        Some(v) => has_other(row, *v),
        None => false,
    }
}

// Whether one of the values is not this one.
fn has_other(values: &[Value], v: Value) -> bool
    ensures { IsAnswer result (HasOther values.now v) }
{
    for w in values {
        if *w != v {
            return true;
        }
    }
    false
}
