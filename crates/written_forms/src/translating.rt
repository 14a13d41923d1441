//! The expressions by numbers that written expressions become.

ghost use Rattle.std.specs.Prelude.{◌≡◌, IfOk};
ghost use Rattle.ar_base.specs.Numbers.{VarId};
ghost use Rattle.typed_expr.specs.declared.expr.Expr.{out-Expr};
ghost use Rattle.written_forms.specs.Translating.{leaf_level, BecomesBy, All_become_by, Parts_become_by, Cases_become_by};
ghost use Rattle.written_forms.specs.Relations.{relation_of};

use crate::naming::{Leaf, Leaves};
use ar_base::{Memory, VarId};
use ar_syntax::{RawExpr, RawForm, RawRelation};
use domains::Value;
use std::alloc::Global;
use typed_expr::{Expr, Relation};

/// The expression by numbers that a written expression becomes, where its paths stand for these
/// variables and values.
///
/// `- A` becomes the sum of A alone, taken away. A real, which has no value, becomes 0. The error
/// is want of memory.
#[cycle(translated)]
pub fn translated<L: Leaves>(
    alloc: Global,
    expr: &RawExpr,
    leaves: &L,
) -> Result<Expr<VarId>, Memory>
    requires { L.is_sound leaves.now }
    ensures { IfOk result (λ e. BecomesBy (L.leaf_at leaves.now) expr.now e) }
{
    match &expr.form {
        RawForm::Truth(b) => Ok(Expr::Constant(Value::Truth(*b))),
        RawForm::Whole(n) => Ok(Expr::Constant(Value::Whole(*n))),
        RawForm::Real => Ok(Expr::Constant(Value::Whole(0))),
        RawForm::Path(path) => Ok(leaf_expression(leaves.leaf(path))),
        RawForm::Not(a) => {
            let operand = translated(alloc, a, leaves)?;
            let boxed = Box::new(alloc, operand)?;
            Ok(Expr::Not(boxed))
        }
        RawForm::Minus(a) => {
            let operand = translated(alloc, a, leaves)?;
            let mut parts = Vec::new(alloc);
            parts.push((false, operand))?;
            Ok(Expr::Sum(parts))
        }
        RawForm::All(es) => Ok(Expr::All(all_translated(alloc, es, leaves)?)),
        RawForm::Any(es) => Ok(Expr::Any(all_translated(alloc, es, leaves)?)),
        RawForm::Compare(relation, a, b) => {
            let first = translated(alloc, a, leaves)?;
            let second = translated(alloc, b, leaves)?;
            let left = Box::new(alloc, first)?;
            let right = Box::new(alloc, second)?;
            Ok(Expr::Compare(relation_by(*relation), left, right))
        }
        RawForm::Sum(parts) => Ok(Expr::Sum(terms_translated(alloc, parts, leaves)?)),
        RawForm::Product(es) => Ok(Expr::Product(all_translated(alloc, es, leaves)?)),
        RawForm::Least(es) => Ok(Expr::Least(all_translated(alloc, es, leaves)?)),
        RawForm::Greatest(es) => Ok(Expr::Greatest(all_translated(alloc, es, leaves)?)),
        RawForm::Count(es) => Ok(Expr::Count(all_translated(alloc, es, leaves)?)),
        RawForm::Choose(choices, other) => {
            let cases = cases_translated(alloc, choices, leaves)?;
            let last = translated(alloc, other, leaves)?;
            let boxed = Box::new(alloc, last)?;
            Ok(Expr::Choose(cases, boxed))
        }
    }
}

// What operands become.
#[cycle(translated)]
fn all_translated<L: Leaves>(
    alloc: Global,
    es: &[RawExpr],
    leaves: &L,
) -> Result<Vec<Expr<VarId>>, Memory>
    requires { L.is_sound leaves.now }
    ensures { IfOk result (λ v. All_become_by (L.leaf_at leaves.now) es.now v.items) }
{
    let mut out = Vec::new(alloc);
    for e in es {
        let next = translated(alloc, e, leaves)?;
        out.push(next)?;
    }
    Ok(out)
}

// What the parts of a sum become.
#[cycle(translated)]
fn terms_translated<L: Leaves>(
    alloc: Global,
    parts: &[(bool, RawExpr)],
    leaves: &L,
) -> Result<Vec<(bool, Expr<VarId>)>, Memory>
    requires { L.is_sound leaves.now }
    ensures { IfOk result (λ v. Parts_become_by (L.leaf_at leaves.now) parts.now v.items) }
{
    let mut out = Vec::new(alloc);
    for (plus, e) in parts {
        let next = translated(alloc, e, leaves)?;
        out.push((*plus, next))?;
    }
    Ok(out)
}

// What the cases of a choice become.
#[cycle(translated)]
fn cases_translated<L: Leaves>(
    alloc: Global,
    choices: &[(RawExpr, RawExpr)],
    leaves: &L,
) -> Result<Vec<(Expr<VarId>, Expr<VarId>)>, Memory>
    requires { L.is_sound leaves.now }
    ensures { IfOk result (λ v. Cases_become_by (L.leaf_at leaves.now) choices.now v.items) }
{
    let mut out = Vec::new(alloc);
    for (test, value) in choices {
        let test = translated(alloc, test, leaves)?;
        let value = translated(alloc, value, leaves)?;
        out.push((test, value))?;
    }
    Ok(out)
}

// The expression of a leaf.
fn leaf_expression(leaf: Leaf) -> Expr<VarId>
    ensures { out-Expr VarId result ≡ leaf_level leaf }
{
    match leaf {
        Leaf::Variable(x) => Expr::Variable(x),
        Leaf::Constant(v) => Expr::Constant(v),
    }
}

// The relation that is written so.
fn relation_by(relation: RawRelation) -> Relation
    ensures { result ≡ relation_of relation }
{
    match relation {
        RawRelation::Equal => Relation::Equal,
        RawRelation::Differs => Relation::Differs,
        RawRelation::Less => Relation::Less,
        RawRelation::AtMost => Relation::AtMost,
        RawRelation::More => Relation::More,
        RawRelation::AtLeast => Relation::AtLeast,
    }
}
