//! The variables that expressions and conditions name.

ghost use Rattle.std.specs.Prelude.{IfOk};
ghost use Rattle.typed_expr.specs.Mentions.{Mentions, Some_mentions, Parts_mention, Cases_mention};
ghost use Rattle.typed_expr.specs.declared.expr.Expr.{out-Expr};
ghost use Rattle.ar_base.specs.Numbers.{VarId as Numbered};
ghost use Rattle.ar_meaning.specs.Dependence.{Tests};
ghost use Rattle.gts_core.specs.Adding.{Adds};

use ar_base::{Memory, VarId};
use typed_expr::Expr;

/// Adds each variable that stands in the expression, as often as it stands there. The error is want of memory.
#[cycle(naming)]
pub fn add_named(expr: &Expr<VarId>, found: &mut Vec<VarId>) -> Result<(), Memory>
    ensures { IfOk result (λ _. Adds (λ x. Mentions x (out-Expr Numbered expr.now))
        found.old.items found.new.items) }
{
    match expr {
        Expr::Constant(_) => Ok(()),
        Expr::Variable(x) => {
            found.push(*x)?;
            Ok(())
        }
        Expr::Not(a) => add_named(a, found),
        Expr::All(es) => add_some(es, found),
        Expr::Any(es) => add_some(es, found),
        Expr::Compare(_, a, b) => {
            add_named(a, found)?;
            add_named(b, found)
        }
        Expr::Sum(parts) => add_parts(parts, found),
        Expr::Product(es) => add_some(es, found),
        Expr::Least(es) => add_some(es, found),
        Expr::Greatest(es) => add_some(es, found),
        Expr::Count(es) => add_some(es, found),
        Expr::Choose(cases, other) => {
            add_cases(cases, found)?;
            add_named(other, found)
        }
    }
}

// The same for each of these expressions.
#[cycle(naming)]
fn add_some(es: &[Expr<VarId>], found: &mut Vec<VarId>) -> Result<(), Memory>
    ensures { IfOk result (λ _. Adds (λ x. Some_mentions x es.now) found.old.items
        found.new.items) }
{
    for e in es {
        add_named(e, found)?;
    }
    Ok(())
}

// The same for the parts of a sum.
#[cycle(naming)]
fn add_parts(parts: &[(bool, Expr<VarId>)], found: &mut Vec<VarId>) -> Result<(), Memory>
    ensures { IfOk result (λ _. Adds (λ x. Parts_mention x parts.now) found.old.items
        found.new.items) }
{
    for (_, e) in parts {
        add_named(e, found)?;
    }
    Ok(())
}

// The same for the cases of a choice.
#[cycle(naming)]
fn add_cases(cases: &[(Expr<VarId>, Expr<VarId>)], found: &mut Vec<VarId>) -> Result<(), Memory>
    ensures { IfOk result (λ _. Adds (λ x. Cases_mention x cases.now) found.old.items
        found.new.items) }
{
    for (test, value) in cases {
        add_named(test, found)?;
        add_named(value, found)?;
    }
    Ok(())
}

/// Adds each variable that stands in one of these conditions, as often as it stands there. The error is want of memory.
pub fn add_tests(tests: &[(Expr<VarId>, bool)], found: &mut Vec<VarId>) -> Result<(), Memory>
    ensures { IfOk result (λ _. Adds (λ x. Tests x tests.now) found.old.items found.new.items) }
{
    for (test, _) in tests {
        add_named(test, found)?;
    }
    Ok(())
}
