//! What is known of the facts of a standing valuation after some rounds.

ghost use Rattle.std.specs.Prelude.{◌<◌, [], true, length, map, IfOk, Contains};
ghost use Rattle.domains.specs.declared.Value.{Value};
ghost use Rattle.typed_expr.specs.Kinds.{kind_of};
ghost use Rattle.ar_meaning.specs.Facts.{PassesConditions};
ghost use Rattle.ar_meaning.specs.Found.{IsAnswer};
ghost use Rattle.gts_core.specs.View.{condition_of};
ghost use Rattle.gts_core.specs.Readings.{valuation_at};
ghost use Rattle.flow_reasons.specs.Marks.{Known as IsKnown, fact_value_at};
ghost use Rattle.flow_reasons.specs.Bringing.{Brings};

use crate::fact_marks::{Mark, is_known};
use ar_base::{Memory, VarId};
use domains::Value;
use gts_core::{Assign, value_at};
use std::alloc::Global;
use typed_expr::{Env, Expr, ValueKind, eval_set, kind_of};

/// The values of the variables that have their facts.
#[derive(Drop)]
pub struct Known<'a> {
    /// The values of all variables, by number.
    pub values: &'a [Value],
    /// The marks of all variables, by number.
    pub marks: &'a [Mark],
}

impl Env<VarId> for Known<'_> {
    ghost value_at = { λ e x. valuation_at e.values.now x.n };

    ghost facts_at = { λ e x. fact_value_at e.values.now e.marks.now x.n };

    ghost kind_at = { λ e x. kind_of (valuation_at e.values.now x.n) };

    fn value(&self, v: &VarId) -> Value {
        value_at(self.values, v.n as usize)
    }

    fn facts(&self, v: &VarId) -> &[Value] {
        if !is_known(self.marks, v.n) {
            return &[];
        }
        let place = v.n as usize;
        if place < self.values.len() {
            &self.values[place..place + 1]
        } else {
            &[]
        }
    }

    fn kind(&self, v: &VarId) -> ValueKind {
        kind_of(self.value(v))
    }
}

// Whether the assignment's target has no fact yet, and the assignment is reached from what is known and yields the target's
// value.
pub(crate) fn brings(
    alloc: Global,
    assign: &Assign,
    values: &[Value],
    marks: &[Mark],
) -> Result<bool, Memory>
    requires marks { assign.now.target.n < length marks.now }
    requires values { assign.now.target.n < length values.now }
    ensures { IfOk result (λ b. IsAnswer b (Brings values.now marks.now assign.now)) }
{
    if is_known(marks, assign.target.n) {
        return Ok(false);
    }
    let known = Known { values, marks };
    let reaches = reached(alloc, &assign.when, &known)?;
    if !reaches {
        return Ok(false);
    }
    let set = eval_set(alloc, &assign.value, &known)?;
    let yields = has(set.values(), values[assign.target.n as usize]);
    Ok(yields)
}

// Whether every condition yields the truth value that it must have.
fn reached(
    alloc: Global,
    conditions: &[(Expr<VarId>, bool)],
    known: &Known<'_>,
) -> Result<bool, Memory>
    ensures { IfOk result (λ b. IsAnswer b
        (PassesConditions (IsKnown known.now.values.now known.now.marks.now)
        (map condition_of conditions.now))) }
{
    for (test, must) in conditions {
        let set = eval_set(alloc, test, known)?;
        if !has(set.values(), Value::Truth(*must)) {
            return Ok(false);
        }
    }
    Ok(true)
}

// Whether the value is one of these.
fn has(values: &[Value], v: Value) -> bool
    ensures { IsAnswer result (Contains values.now v) }
{
    values.contains(&v)
}
