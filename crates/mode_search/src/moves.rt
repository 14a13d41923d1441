//! Where transitions lead from the modes of their mode variables.

ghost use Rattle.std.specs.Prelude.{◌≡◌, ◌++◌, IfOk, Contains, map};
ghost use Rattle.domains.specs.Domains.{IsDomain, values_of};
ghost use Rattle.ar_meaning.specs.Facts.{PassesConditions};
ghost use Rattle.ar_meaning.specs.Found.{IsAnswer};
ghost use Rattle.ar_firing.specs.Fragment.{At};
ghost use Rattle.gts_core.specs.View.{condition_of};
ghost use Rattle.gts_core.specs.Adding.{Adds, HasThose};
ghost use Rattle.mode_search.specs.Adding.{SomeHas};
ghost use Rattle.mode_search.specs.Modes.{transition_of};
ghost use Rattle.ar_base.specs.ListsInside.{HasOther};
ghost use Rattle.mode_search.specs.Moves.{HasAt, IsMove, IsJudged, GivesValue};

use ar_base::{Memory, VarId};
use domains::{Domain, Value};
use gts_core::Assign;
use std::alloc::Global;
use typed_expr::{Env, Expr, ValueKind, eval_set, first_of, kind_of};

/// Where a transition leads from a mode of its mode variable.
#[derive(Clone, Copy)]
pub enum Move {
    /// Nowhere: its guard is not true there.
    Still,
    /// To this mode: its guard is true, and it assigns exactly this value, in the domain.
    To(Value),
    /// Its guard is true, and it assigns no value, two, or one outside the domain.
    Wrong,
}

// One variable with the values that it has, where no other has a value.
#[derive(Drop)]
struct AtMode<'a> {
    variable: VarId,
    values: &'a [Value],
}

impl Env<VarId> for AtMode<'_> {
    ghost use Rattle.std.specs.Prelude.{slice_get};
    ghost use Rattle.domains.specs.declared.Value.TheVariants.{Truth};
    ghost use Rattle.typed_expr.specs.Kinds.{kind_of};
    ghost use Rattle.typed_expr.specs.Rows.{first_of_row};
    ghost use Rattle.mode_search.specs.Moves.{lone_values_at};

    ghost value_at = { λ e x. first_of_row (lone_values_at e.variable.n e.values.now x) };

    ghost facts_at = { λ e x. lone_values_at e.variable.n e.values.now x };

    ghost kind_at = { λ e x. kind_of (first_of_row (lone_values_at e.variable.n e.values.now x)) };

    fn value(&self, v: &VarId) -> Value {
        first_of(self.facts(v))
    }

    fn facts(&self, v: &VarId) -> &[Value] {
        if v.n == self.variable.n {
            self.values
        } else {
            &[]
        }
    }

    fn kind(&self, v: &VarId) -> ValueKind {
        kind_of(self.value(v))
    }
}

/// Where a transition leads from this mode of its mode variable, where no other variable has a value. The error is want of
/// memory.
pub fn move_at(
    alloc: Global,
    variable: VarId,
    domain: &Domain,
    mode: Value,
    guard: &Expr<VarId>,
    action: &[Assign],
) -> Result<Move, Memory>
    requires { IsDomain domain.now }
    ensures { IfOk result (IsMove (At variable.n mode) (transition_of guard.now action.now)
        variable.n (values_of domain.now)) }
{
    let modes = [mode];
    let at = AtMode {
        variable,
        values: &modes,
    };
    let can = eval_set(alloc, guard, &at)?;
    if !has(can.values(), Value::Truth(true)) {
        return Ok(Move::Still);
    }
    let values = given(alloc, action, &at)?;
    Ok(judged(domain, &values))
}

// The values that an action gives the variable.
fn given(alloc: Global, action: &[Assign], at: &AtMode<'_>) -> Result<Vec<Value>, Memory>
    ensures { IfOk result (λ values. HasThose (SomeHas
        (GivesValue (HasAt at.now.variable.n at.now.values.now) at.now.variable.n) action.now)
        values.items) }
{
    let mut values = Vec::new(alloc);
    for assign in action {
        add_given(alloc, assign, at, &mut values)?;
    }
    Ok(values)
}

// Adds the values that an assignment gives the variable.
fn add_given(
    alloc: Global,
    assign: &Assign,
    at: &AtMode<'_>,
    values: &mut Vec<Value>,
) -> Result<(), Memory>
    ensures { IfOk result (λ _. Adds
        (GivesValue (HasAt at.now.variable.n at.now.values.now) at.now.variable.n assign.now)
        values.old.items values.new.items) }
{
    if assign.target.n != at.variable.n {
        return Ok(());
    }
    let reaches = reached(alloc, &assign.when, at)?;
    if !reaches {
        return Ok(());
    }
    let set = eval_set(alloc, &assign.value, at)?;
    add_all(set.values(), values)
}

// Adds these values.
fn add_all(more: &[Value], values: &mut Vec<Value>) -> Result<(), Memory>
    ensures { IfOk result (λ _. values.new.items ≡ values.old.items ++ more.now) }
{
    for value in more {
        values.push(*value)?;
    }
    Ok(())
}

// Whether every condition yields the truth value that it must have.
fn reached(
    alloc: Global,
    conditions: &[(Expr<VarId>, bool)],
    at: &AtMode<'_>,
) -> Result<bool, Memory>
    ensures { IfOk result (λ b. IsAnswer b (PassesConditions (HasAt at.now.variable.n at.now.values.now)
        (map condition_of conditions.now))) }
{
    for (test, must) in conditions {
        let set = eval_set(alloc, test, at)?;
        if !has(set.values(), Value::Truth(*must)) {
            return Ok(false);
        }
    }
    Ok(true)
}

// Whether the value is one of these.
fn has(values: &[Value], v: Value) -> bool
    ensures { IsAnswer result (Contains values.now v) }
{
    values.contains(&v)
}

// Where these values lead: to the one of them, where the domain has it.
fn judged(domain: &Domain, values: &[Value]) -> Move
    requires { IsDomain domain.now }
    ensures { IsJudged values.now (values_of domain.now) result }
{
    let Some(first) = values.first() else {
        return Move::Wrong;
    };
    if has_other(values, *first) {
        return Move::Wrong;
    }
    if !domain.holds(*first) {
        return Move::Wrong;
    }
    Move::To(*first)
}

// Whether one of the values is not this one.
fn has_other(values: &[Value], v: Value) -> bool
    ensures { IsAnswer result (HasOther values.now v) }
{
    for w in values {
        if *w != v {
            return true;
        }
    }
    false
}
