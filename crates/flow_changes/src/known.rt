//! What is known, as expressions read it.

ghost use Rattle.std.specs.Prelude.{◌≡◌, [], map, IfOk};
ghost use Rattle.domains.specs.declared.Value.{Value};
ghost use Rattle.typed_expr.specs.Kinds.{kind_of};
ghost use Rattle.typed_expr.specs.Rows.{first_of_row};
ghost use Rattle.ar_meaning.specs.Facts.{PassesConditions};
ghost use Rattle.ar_meaning.specs.Found.{IsAnswer};
ghost use Rattle.ar_meaning.specs.Reached.{YieldsWhereReached};
ghost use Rattle.gts_core.specs.View.{assign_of, condition_of};
ghost use Rattle.flow_changes.specs.Cone.{Knows};
ghost use Rattle.flow_propagate.specs.Determined.{marked_value_at};
ghost use Rattle.flow_changes.specs.Restoring.{mark_at};

use ar_base::{Memory, VarId};
use domains::Value;
use gts_core::Assign;
use std::alloc::Global;
use typed_expr::{Env, Expr, ValueKind, ValueSet, eval_set, first_of, kind_of};

/// The values of the variables, and which of them are known.
#[derive(Drop)]
pub(crate) struct Known<'a> {
    /// The values, in the order of the variables.
    pub(crate) values: &'a [Value],
    /// For each variable whether its value is known.
    pub(crate) known: &'a [bool],
}

impl Env<VarId> for Known<'_> {
    ghost value_at = { λ e x. first_of_row (marked_value_at e.values.now e.known.now x.n) };

    ghost facts_at = { λ e x. marked_value_at e.values.now e.known.now x.n };

    ghost kind_at = { λ e x. kind_of (first_of_row (marked_value_at e.values.now e.known.now x.n)) };

    fn value(&self, v: &VarId) -> Value {
        first_of(self.facts(v))
    }

    fn facts(&self, v: &VarId) -> &[Value] {
        let place = v.n as usize;
        if !is_set(self.known, place) {
            return &[];
        }
        if place >= self.values.len() {
            return &[];
        }
        &self.values[place..place + 1]
    }

    fn kind(&self, v: &VarId) -> ValueKind {
        kind_of(self.value(v))
    }
}

// Whether the mark of this number is set.
pub(crate) fn is_set(marks: &[bool], n: usize) -> bool
    ensures { result ≡ mark_at marks.now n }
{
    match marks.get(n) {
        Some(mark) => *mark,
        None => false,
    }
}

// Whether every condition yields the truth value that it must have.
fn reached(alloc: Global, conditions: &[(Expr<VarId>, bool)], known: &Known) -> Result<bool, Memory>
    ensures { IfOk result (λ b. IsAnswer b
        (PassesConditions (Knows known.now.values.now known.now.known.now)
        (map condition_of conditions.now))) }
{
    for (test, must) in conditions {
        let set = eval_set(alloc, test, known)?;
        if !set.values().contains(&Value::Truth(*must)) {
            return Ok(false);
        }
    }
    Ok(true)
}

// What an assignment yields, where it is reached.
pub(crate) fn yielded(
    alloc: Global,
    assign: &Assign,
    known: &Known,
) -> Result<Option<ValueSet>, Memory>
    ensures { IfOk result (λ o. YieldsWhereReached (Knows known.now.values.now known.now.known.now)
        (assign_of assign.now) o) }
{
    let reaches = reached(alloc, &assign.when, known)?;
    if !reaches {
        return Ok(None);
    }
    let set = eval_set(alloc, &assign.value, known)?;
    Ok(Some(set))
}
