//! The value of an expression under one value for each variable.

ghost use Rattle.std.specs.Prelude.{◌≡◌, map, unwrap_or};
ghost use Rattle.domains.specs.declared.Value.{Value};
ghost use Rattle.typed_expr.specs.Values.{sum_of};
ghost use Rattle.typed_expr.specs.Folds.{fold_of};
ghost use Rattle.typed_expr.specs.Total.{value_of, all_true, one_true, first_true};

use crate::env::Env;
use crate::expr::Expr;
use crate::fold::{Step, next, start};
use crate::relations::related;
use domains::Value;

/// The value of an expression under the environment's one value for each variable.
///
/// The expression is to be well typed; in one that is not, an operand of another kind than its form
/// asks for counts as false or 0. A conjunction stops at its first false operand, a disjunction at
/// its first true one, and a choice reads the branch that it takes alone.
#[cycle(total)]
pub fn eval_total<V, E: Env<V>>(expr: &Expr<V>, env: &E) -> Value
    ensures { result ≡ value_of (E.value_at env.now) expr.now }
{
    match expr {
        Expr::Constant(v) => *v,
        Expr::Variable(x) => env.value(x),
        Expr::Not(a) => Value::Truth(!eval_total(a, env).truth()),
        Expr::All(es) => Value::Truth(all_total(es, env)),
        Expr::Any(es) => Value::Truth(any_total(es, env)),
        Expr::Compare(relation, a, b) => {
            let left = eval_total(a, env);
            let right = eval_total(b, env);
            Value::Truth(related(*relation, left, right))
        }
        Expr::Sum(parts) => Value::Whole(sum_total(parts, env)),
        Expr::Product(es) => Value::Whole(fold_total(Step::Times, es, env)),
        Expr::Least(es) => Value::Whole(fold_total(Step::Lesser, es, env)),
        Expr::Greatest(es) => Value::Whole(fold_total(Step::Greater, es, env)),
        Expr::Count(es) => Value::Whole(fold_total(Step::Counted, es, env)),
        Expr::Choose(cases, other) => match chosen(cases, env) {
            Some(v) => v,
            None => eval_total(other, env),
        },
    }
}

// Whether each is true.
#[cycle(total)]
fn all_total<V, E: Env<V>>(es: &[Expr<V>], env: &E) -> bool
    ensures { result ≡ all_true (map (value_of (E.value_at env.now)) es.now) }
{
    for e in es {
        if !eval_total(e, env).truth() {
            return false;
        }
    }
    true
}

// Whether one is true.
#[cycle(total)]
fn any_total<V, E: Env<V>>(es: &[Expr<V>], env: &E) -> bool
    ensures { result ≡ one_true (map (value_of (E.value_at env.now)) es.now) }
{
    for e in es {
        if eval_total(e, env).truth() {
            return true;
        }
    }
    false
}

// The sum of the parts.
#[cycle(total)]
fn sum_total<V, E: Env<V>>(parts: &[(bool, Expr<V>)], env: &E) -> i64
    ensures { result ≡ sum_of (map (λ p. (p.0, value_of (E.value_at env.now) p.1)) parts.now) }
{
    let mut sum = 0;
    for (plus, e) in parts {
        sum = next(Step::Part(*plus), false, sum, eval_total(e, env));
    }
    sum
}

// The fold of the operands.
#[cycle(total)]
fn fold_total<V, E: Env<V>>(step: Step, es: &[Expr<V>], env: &E) -> i64
    ensures { result ≡ fold_of step (map (value_of (E.value_at env.now)) es.now) }
{
    let mut so_far = start(step);
    let mut first = true;
    for e in es {
        so_far = next(step, first, so_far, eval_total(e, env));
        first = false;
    }
    so_far
}

// The value of the first case whose test is true.
#[cycle(total)]
fn chosen<V, E: Env<V>>(cases: &[(Expr<V>, Expr<V>)], env: &E) -> Option<Value>
    ensures { (other : Value)
        → first_true (map (λ c. (
          value_of (E.value_at env.now) c.0,
          value_of (E.value_at env.now) c.1,
        )) cases.now) other ≡ unwrap_or result other }
{
    for (test, value) in cases {
        if eval_total(test, env).truth() {
            return Some(eval_total(value, env));
        }
    }
    None
}
