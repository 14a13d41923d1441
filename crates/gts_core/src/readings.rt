//! What expressions read under a total valuation.

ghost use Rattle.std.specs.Prelude.{◌≡◌, [], true};
ghost use Rattle.std.specs.List.{list_all};
ghost use Rattle.typed_expr.specs.Kinds.{kind_of};
ghost use Rattle.gts_core.specs.Readings.{valuation_at, valuation_values, value_in, is_met};

use ar_base::VarId;
use domains::Value;
use typed_expr::{Env, Expr, ValueKind, eval_total, kind_of};

/// The value at a place of a list; false past its end. Takes no memory.
pub fn value_at(values: &[Value], place: usize) -> Value
    ensures { result ≡ valuation_at values.now place }
{
    match values.get(place) {
        Some(value) => *value,
        None => Value::Truth(false),
    }
}

/// A total valuation, which gives each variable its one value.
#[derive(Drop)]
pub struct Assigned<'a> {
    /// The values of the variables, in their order.
    pub values: &'a [Value],
}

impl Env<VarId> for Assigned<'_> {
    ghost value_at = { λ e x. valuation_at e.values.now x.n };

    ghost facts_at = { λ e x. valuation_values e.values.now x.n };

    ghost kind_at = { λ e x. kind_of (valuation_at e.values.now x.n) };

    fn value(&self, v: &VarId) -> Value {
        value_at(self.values, v.n as usize)
    }

    fn facts(&self, v: &VarId) -> &[Value] {
        let place = v.n as usize;
        if place < self.values.len() {
            &self.values[place..place + 1]
        } else {
            &[]
        }
    }

    fn kind(&self, v: &VarId) -> ValueKind {
        kind_of(self.value(v))
    }
}

/// The value of an expression under these values. Takes no memory.
pub fn value_in(values: &[Value], expr: &Expr<VarId>) -> Value
    ensures { result ≡ value_in values.now expr.now }
{
    let assigned = Assigned { values };
    eval_total(expr, &assigned)
}

/// Whether a test has the truth value that it must have. Takes no memory.
pub fn is_met(values: &[Value], test: &Expr<VarId>, truth: bool) -> bool
    ensures { result ≡ is_met values.now (test.now, truth) }
{
    match value_in(values, test) {
        Value::Truth(b) => { if truth { b } else { !b } }
        Value::Whole(_) => false,
        Value::Symbol(_) => false,
    }
}

/// Whether every condition has the truth value that it must have. Takes no memory.
pub fn are_met(values: &[Value], conditions: &[(Expr<VarId>, bool)]) -> bool
    ensures { result ≡ list_all (is_met values.now) conditions.now }
{
    for (test, truth) in conditions {
        if !is_met(values, test, *truth) {
            return false;
        }
    }
    true
}
