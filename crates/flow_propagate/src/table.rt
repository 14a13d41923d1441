//! Tables of facts.

ghost use Rattle.std.specs.Prelude.{true, false, ◌<◌, map, IfOk, Contains};
ghost use Rattle.domains.specs.declared.Value.{Value};
ghost use Rattle.domains.specs.declared.Value.TheVariants.{Truth};
ghost use Rattle.typed_expr.specs.Kinds.{kind_of};
ghost use Rattle.ar_meaning.specs.Facts.{PassesConditions};
ghost use Rattle.ar_meaning.specs.Found.{IsAnswer};
ghost use Rattle.gts_core.specs.View.{assign_of, condition_of};
ghost use Rattle.typed_expr.specs.Rows.{known_row_at, first_of_row};
ghost use Rattle.flow_propagate.specs.Table.{TableHolds, YieldsFromTable};

use ar_base::{Memory, VarId};
use domains::Value;
use gts_core::Assign;
use std::alloc::Global;
use typed_expr::{
    Budget, Env, Expr, ValueKind, ValueSet, eval_set_within, first_of, kind_of, row_at,
};

/// The values known of each variable, by number.
#[derive(Drop)]
pub struct Table {
    pub rows: Vec<Vec<Value>>,
}

impl Env<VarId> for Table {
    ghost value_at = { λ t x. first_of_row (known_row_at t.rows.items x.n) };

    ghost facts_at = { λ t x. known_row_at t.rows.items x.n };

    ghost kind_at = { λ t x. kind_of (first_of_row (known_row_at t.rows.items x.n)) };

    fn value(&self, v: &VarId) -> Value {
        first_of(self.facts(v))
    }

    fn facts(&self, v: &VarId) -> &[Value] {
        row_at(&self.rows, v.n)
    }

    fn kind(&self, v: &VarId) -> ValueKind {
        kind_of(self.value(v))
    }
}

// Whether every condition yields the truth value that it must have.
pub(crate) fn reached(
    alloc: Global,
    conditions: &[(Expr<VarId>, bool)],
    table: &Table,
    budget: &mut Budget,
) -> Result<bool, Memory>
    ensures { IfOk result (λ b. IsAnswer b
        (PassesConditions (TableHolds table.now.rows.items) (map condition_of conditions.now))) }
{
    for (test, must) in conditions {
        let set = eval_set_within(alloc, test, table, budget)?;
        if !has(set.values(), Value::Truth(*must)) {
            return Ok(false);
        }
    }
    Ok(true)
}

// Whether the value is one of these.
pub(crate) fn has(values: &[Value], v: Value) -> bool
    ensures { IsAnswer result (Contains values.now v) }
{
    values.contains(&v)
}

// What an assignment yields, where it is reached.
pub(crate) fn yielded(
    alloc: Global,
    assign: &Assign,
    table: &Table,
    budget: &mut Budget,
) -> Result<Option<ValueSet>, Memory>
    ensures { IfOk result (λ o. YieldsFromTable table.now.rows.items (assign_of assign.now) o) }
{
    let reaches = reached(alloc, &assign.when, table, budget)?;
    if !reaches {
        return Ok(None);
    }
    let set = eval_set_within(alloc, &assign.value, table, budget)?;
    Ok(Some(set))
}
