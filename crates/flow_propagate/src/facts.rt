//! The facts that follow from a state.

ghost use Rattle.std.specs.Prelude.{true, false, ◌≡◌, ◌<◌, length, IfOk};
ghost use Rattle.ar_base.specs.Lists.{IsOneOf};
ghost use Rattle.domains.specs.Domains.{IsDomain};
ghost use Rattle.gts_core.specs.Sound.{IsSound};
ghost use Rattle.flow_propagate.specs.Table.{PutsValue, PutsAll};
ghost use Rattle.flow_propagate.specs.Closing.{AppliesAssignment};
ghost use Rattle.flow_propagate.specs.Searches.{LeavesTargetDomain};
ghost use Rattle.ar_meaning.specs.Found.{IsAnswer};

use crate::searches::some_outside;
use crate::table::{Table, has, yielded};
use ar_base::Memory;
use domains::{Domain, Value};
use gts_core::{Assign, GtsParts};
use std::alloc::Global;
use typed_expr::Budget;

// Adds what an assignment yields.
pub(crate) fn apply(
    alloc: Global,
    parts: &GtsParts,
    assign: &Assign,
    table: &mut Table,
    budget: &mut Budget,
) -> Result<Look, Memory>
    requires sound { IsSound parts.now }
    requires one { IsOneOf parts.now.assigns.items assign.now }
    requires long { length table.old.rows.items ≡ length parts.now.variables.items }
    ensures applies { IfOk result (λ look.
        AppliesAssignment parts.now assign.now table.old.rows.items table.new.rows.items look.changed) }
    ensures outside { IfOk result (λ look.
        IsAnswer look.outside (LeavesTargetDomain parts.now table.old.rows.items assign.now)) }
{
    let Some(set) = yielded(alloc, assign, table, budget)? else {
        return Ok(Look {
            changed: false,
            outside: false,
        });
    };
    let domain = &parts.variables[assign.target.n as usize].domain;
    let outside = some_outside(domain, set.values());
    let changed = put_all(table, domain, assign.target.n, set.values())?;
    Ok(Look { changed, outside })
}

// Puts a value into a variable's row, where the domain has it and the row lacks it, and answers whether the row changed.
fn put(table: &mut Table, domain: &Domain, target: u32, v: Value) -> Result<bool, Memory>
    requires in_range { target < length table.old.rows.items }
    requires domain { IsDomain domain.now }
    ensures { IfOk result (λ changed.
        PutsValue domain.now target v table.old.rows.items table.new.rows.items changed) }
{
    if !domain.holds(v) {
        return Ok(false);
    }
    if has(&table.rows[target as usize], v) {
        return Ok(false);
    }
    table.rows[target as usize].push(v)?;
    Ok(true)
}

// Puts values into a variable's row.
fn put_all(
    table: &mut Table,
    domain: &Domain,
    target: u32,
    values: &[Value],
) -> Result<bool, Memory>
    requires in_range { target < length table.old.rows.items }
    requires domain { IsDomain domain.now }
    ensures { IfOk result (λ changed.
        PutsAll domain.now target values.now table.old.rows.items table.new.rows.items changed) }
{
    let mut changed = false;
    for v in values {
        let more = put(table, domain, target, *v)?;
        changed |= more;
    }
    Ok(changed)
}

// What a look at an assignment found: whether the table changed, and whether a value was yielded that is outside the domain
// of the assignment's target.
#[derive(Clone, Copy)]
pub(crate) struct Look {
    pub(crate) changed: bool,
    pub(crate) outside: bool,
}
