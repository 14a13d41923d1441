//! The kinds of expressions.

ghost use Rattle.std.specs.Prelude.{◌≡◌, ◌<◌, ◌↔◌, IsTrue, Some, None, if◌then◌else◌, length};
ghost use Rattle.typed_expr.specs.declared.expr.Expr.{out-Expr};
ghost use Rattle.typed_expr.specs.declared.expr.ValueKind.{ValueKind};
ghost use Rattle.typed_expr.specs.Kinds.{kind_of as kind_of_value, Compares, Each, Each_part, Each_case};
ghost use Rattle.typed_expr.specs.KindsInside.{IsLevelKind};

use crate::env::Env;
use crate::expr::{Expr, Relation, ValueKind};
use crate::sets::both;
use domains::Value;

/// The kind of an expression, where its variables have the kinds that the environment gives them,
/// or None where a form in it is ill typed or a list of operands or cases in it is empty.
///
/// Operands of `All`, `Any`, `Not` and `Count`, and tests, are truth values. Operands of sums,
/// products, `Least`, `Greatest` and of the comparisons of order are whole numbers. The two sides
/// of `Equal` and `Differs`, and all branches of a choice, have one kind.
#[cycle(typed)]
pub fn typed<V, E: Env<V>>(expr: &Expr<V>, env: &E) -> Option<ValueKind>
    ensures { IsLevelKind (E.kind_at env.now) (out-Expr V expr.now) result }
{
    match expr {
        Expr::Constant(v) => Some(kind_of(*v)),
        Expr::Variable(x) => Some(env.kind(x)),
        Expr::Not(a) => kind_where(is_kind(typed(a, env), ValueKind::Truth), ValueKind::Truth),
        Expr::All(es) => kind_where(each_has(es, env, ValueKind::Truth), ValueKind::Truth),
        Expr::Any(es) => kind_where(each_has(es, env, ValueKind::Truth), ValueKind::Truth),
        Expr::Compare(relation, a, b) => match typed(a, env) {
            Some(kind) => {
                let same = is_kind(typed(b, env), kind);
                kind_where(both(compares(*relation, kind), same), ValueKind::Truth)
            }
            None => None,
        },
        Expr::Sum(parts) => kind_where(each_part(parts, env), ValueKind::Whole),
        Expr::Product(es) => kind_where(each_has(es, env, ValueKind::Whole), ValueKind::Whole),
        Expr::Least(es) => kind_where(each_has(es, env, ValueKind::Whole), ValueKind::Whole),
        Expr::Greatest(es) => kind_where(each_has(es, env, ValueKind::Whole), ValueKind::Whole),
        Expr::Count(es) => kind_where(each_has(es, env, ValueKind::Truth), ValueKind::Whole),
        Expr::Choose(cases, other) => match typed(other, env) {
            Some(kind) => kind_where(each_case(cases, env, kind), kind),
            None => None,
        },
    }
}

// Whether there is an operand, and each has the kind.
#[cycle(typed)]
fn each_has<V, E: Env<V>>(es: &[Expr<V>], env: &E, kind: ValueKind) -> bool
    ensures { IsTrue result ↔ ((0 < length es.now) × Each (E.kind_at env.now) es.now kind) }
{
    if es.is_empty() {
        return false;
    }
    for e in es {
        if !is_kind(typed(e, env), kind) {
            return false;
        }
    }
    true
}

// Whether there is a part, and each is a whole number.
#[cycle(typed)]
fn each_part<V, E: Env<V>>(parts: &[(bool, Expr<V>)], env: &E) -> bool
    ensures { IsTrue result ↔ ((0 < length parts.now) × Each_part (E.kind_at env.now) parts.now) }
{
    if parts.is_empty() {
        return false;
    }
    for (_, e) in parts {
        if !is_kind(typed(e, env), ValueKind::Whole) {
            return false;
        }
    }
    true
}

// Whether there is a case, each test is a truth value, and each value has the kind.
#[cycle(typed)]
fn each_case<V, E: Env<V>>(cases: &[(Expr<V>, Expr<V>)], env: &E, kind: ValueKind) -> bool
    ensures { IsTrue result
        ↔ ((0 < length cases.now) × Each_case (E.kind_at env.now) cases.now kind) }
{
    if cases.is_empty() {
        return false;
    }
    for (test, value) in cases {
        if !is_kind(typed(test, env), ValueKind::Truth) {
            return false;
        }
        if !is_kind(typed(value, env), kind) {
            return false;
        }
    }
    true
}

/// The kind of a value. Takes no memory.
pub fn kind_of(v: Value) -> ValueKind
    ensures { result ≡ kind_of_value v }
{
    match v {
        Value::Truth(_) => ValueKind::Truth,
        Value::Whole(_) => ValueKind::Whole,
        Value::Symbol(_) => ValueKind::Symbol,
    }
}

// Whether values of the kind may be so compared.
fn compares(relation: Relation, kind: ValueKind) -> bool
    ensures { IsTrue result ↔ Compares relation kind }
{
    match relation {
        Relation::Equal => true,
        Relation::Differs => true,
        Relation::Less => is_whole(kind),
        Relation::AtMost => is_whole(kind),
        Relation::More => is_whole(kind),
        Relation::AtLeast => is_whole(kind),
    }
}

// Whether the kind is that of whole numbers.
fn is_whole(kind: ValueKind) -> bool
    ensures { IsTrue result ↔ (kind ≡ ValueKind.Whole) }
{
    match kind {
        ValueKind::Truth => false,
        ValueKind::Whole => true,
        ValueKind::Symbol => false,
    }
}

// Whether a kind was found and is this one.
fn is_kind(found: Option<ValueKind>, kind: ValueKind) -> bool
    ensures { IsTrue result ↔ (found ≡ Some kind) }
{
    match (found, kind) {
        (Some(ValueKind::Truth), ValueKind::Truth) => true,
        (Some(ValueKind::Whole), ValueKind::Whole) => true,
        (Some(ValueKind::Symbol), ValueKind::Symbol) => true,
        _ => false,
    }
}

// The kind, where it holds.
fn kind_where(holds: bool, kind: ValueKind) -> Option<ValueKind>
    ensures { result ≡ (if holds then Some kind else None) }
{
    if holds { Some(kind) } else { None }
}
