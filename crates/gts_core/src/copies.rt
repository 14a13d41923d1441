//! Copies of expressions and domains.

ghost use Rattle.std.specs.Prelude.{IfOk};
ghost use Rattle.domains.specs.SameInside.{IsSameDomain};
ghost use Rattle.gts_core.specs.Copies.{IsCopy, AreCopies, AreTermCopies, AreCaseCopies};

use ar_base::{Memory, VarId};
use domains::Domain;
use std::alloc::Global;
use typed_expr::Expr;

/// A copy of a domain: the same values in the same order. The error is want of memory.
pub fn copy_domain(domain: &Domain) -> Result<Domain, Memory>
    ensures { IfOk result (IsSameDomain domain.now) }
{
    match domain {
        Domain::Boolean => Ok(Domain::Boolean),
        Domain::Symbols(symbols) => Ok(Domain::Symbols(symbols.clone()?)),
        Domain::Range(low, high) => Ok(Domain::Range(*low, *high)),
    }
}

/// A copy of an expression, the same form for form. The error is want of memory.
#[cycle(copy_expression)]
pub fn copy_expression(alloc: Global, expr: &Expr<VarId>) -> Result<Expr<VarId>, Memory>
    ensures { IfOk result (IsCopy expr.now) }
{
    match expr {
        Expr::Constant(v) => Ok(Expr::Constant(*v)),
        Expr::Variable(x) => Ok(Expr::Variable(*x)),
        Expr::Not(a) => {
            let operand = copy_expression(alloc, a)?;
            Ok(Expr::Not(Box::new(alloc, operand)?))
        }
        Expr::All(es) => Ok(Expr::All(listed(alloc, es)?)),
        Expr::Any(es) => Ok(Expr::Any(listed(alloc, es)?)),
        Expr::Compare(relation, a, b) => {
            let first = copy_expression(alloc, a)?;
            let second = copy_expression(alloc, b)?;
            let left = Box::new(alloc, first)?;
            let right = Box::new(alloc, second)?;
            Ok(Expr::Compare(*relation, left, right))
        }
        Expr::Sum(terms) => Ok(Expr::Sum(summed(alloc, terms)?)),
        Expr::Product(es) => Ok(Expr::Product(listed(alloc, es)?)),
        Expr::Least(es) => Ok(Expr::Least(listed(alloc, es)?)),
        Expr::Greatest(es) => Ok(Expr::Greatest(listed(alloc, es)?)),
        Expr::Count(es) => Ok(Expr::Count(listed(alloc, es)?)),
        Expr::Choose(choices, other) => {
            let cases = chosen(alloc, choices)?;
            let last = copy_expression(alloc, other)?;
            Ok(Expr::Choose(cases, Box::new(alloc, last)?))
        }
    }
}

// Copies of expressions and domains.
#[cycle(copy_expression)]
fn listed(alloc: Global, es: &[Expr<VarId>]) -> Result<Vec<Expr<VarId>>, Memory>
    ensures { IfOk result (λ v. AreCopies es.now v.items) }
{
    let mut out = Vec::new(alloc);
    for e in es {
        let copy = copy_expression(alloc, e)?;
        out.push(copy)?;
    }
    Ok(out)
}

// Copies of the parts of a sum.
#[cycle(copy_expression)]
fn summed(alloc: Global, terms: &[(bool, Expr<VarId>)]) -> Result<Vec<(bool, Expr<VarId>)>, Memory>
    ensures { IfOk result (λ v. AreTermCopies terms.now v.items) }
{
    let mut out = Vec::new(alloc);
    for (plus, e) in terms {
        let copy = copy_expression(alloc, e)?;
        out.push((*plus, copy))?;
    }
    Ok(out)
}

// Copies of the cases of a choice.
#[cycle(copy_expression)]
fn chosen(
    alloc: Global,
    choices: &[(Expr<VarId>, Expr<VarId>)],
) -> Result<Vec<(Expr<VarId>, Expr<VarId>)>, Memory>
    ensures { IfOk result (λ v. AreCaseCopies choices.now v.items) }
{
    let mut out = Vec::new(alloc);
    for (test, value) in choices {
        let test = copy_expression(alloc, test)?;
        let value = copy_expression(alloc, value)?;
        out.push((test, value))?;
    }
    Ok(out)
}
