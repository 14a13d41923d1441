//! Total valuations.

ghost use Rattle.std.specs.Prelude.{[], ◌∷◌, ◌≡◌, ◌<◌, ◌≤◌, ℕ, List, length, IfOk};
ghost use Rattle.domains.specs.declared.Value.{Value};
ghost use Rattle.ar_meaning.specs.Found.{IsAnswer};
ghost use Rattle.ar_meaning.specs.FoundInside.{IsFirstOrNone};
ghost use Rattle.gts_core.specs.Sound.{IsSound};
ghost use Rattle.typed_expr.specs.Rows.{known_row_at};
ghost use Rattle.flow_propagate.specs.Totals.{Completed, completed_value, MarkKnownRows, Breaks};

use crate::table::Table;
use ar_base::Memory;
use domains::Value;
use gts_core::{Assign, GtsParts, are_met, value_in};
use std::alloc::Global;

// The values of the state variables, with the first fact of each flow, or its reset where it has none.
pub(crate) fn completed(
    alloc: Global,
    parts: &GtsParts,
    values: &[Value],
    table: &Table,
) -> Result<Vec<Value>, Memory>
    requires long { length values.now ≡ length parts.now.variables.items }
    requires rows { length table.now.rows.items ≡ length parts.now.variables.items }
    ensures { IfOk result (λ total. Completed parts.now.variables.items values.now
        table.now.rows.items (length parts.now.variables.items) total.items) }
{
    let mut total = Vec::new(alloc);
    for (place, variable) in parts.variables.iter().enumerate() {
        total.push(value_for(
            variable.is_state,
            values[place],
            &table.rows[place],
            variable.value,
        ))?;
    }
    Ok(total)
}

// The value of a variable: a state variable keeps its own, and a flow has its first fact or its reset.
fn value_for(is_state: bool, own: Value, row: &[Value], reset: Value) -> Value
    ensures { result ≡ completed_value is_state own row.now reset }
{
    if is_state {
        return own;
    }
    match row.first() {
        Some(v) => *v,
        None => reset,
    }
}

// Which rows of the table have a value.
pub(crate) fn marks(alloc: Global, table: &Table) -> Result<Vec<bool>, Memory>
    ensures { IfOk result (λ marks. MarkKnownRows table.now.rows.items (length table.now.rows.items)
        marks.items) }
{
    let mut marks = Vec::new(alloc);
    for row in &table.rows {
        marks.push(!row.is_empty())?;
    }
    Ok(marks)
}

// The least assignment that is reached under a total valuation and has another value than its target.
pub(crate) fn first_broken(parts: &GtsParts, total: &[Value]) -> Option<u32>
    requires { IsSound parts.now }
    ensures { IsFirstOrNone parts.now.assigns.items (Breaks total.now) result }
{
    for (place, assign) in parts.assigns.iter().enumerate() {
        if is_broken(assign, total) {
            return Some(place as u32);
        }
    }
    None
}

// Whether an assignment is reached under a total valuation and has another value than its target.
fn is_broken(assign: &Assign, total: &[Value]) -> bool
    ensures { IsAnswer result (Breaks total.now assign.now) }
{
    if !are_met(total, &assign.when) {
        return false;
    }
    let value = value_in(total, &assign.value);
    match total.get(assign.target.n as usize) {
        Some(own) => *own != value,
        None => true,
    }
}
