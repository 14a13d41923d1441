//! How many nodes expressions have.

ghost use Rattle.std.specs.Prelude.{◌≡◌, ◌+◌, min};
ghost use Rattle.gts_flatten.specs.Sizes.{nodes_of, nodes_in};
ghost use Rattle.gts_flatten.specs.SizesInside.{term_nodes_in, case_nodes_in};

use ar_base::VarId;
use typed_expr::Expr;

/// One more than the nodes that a system may have: no count goes on beyond it.
pub(crate) const TOO_MANY: u64 = 1_000_001;

/// The number of nodes of an expression, or one more than the limit where it has more.
#[cycle(nodes)]
pub(crate) fn nodes(expr: &Expr<VarId>) -> u64
    ensures { result ≡ min 1000001 (nodes_of expr.now) }
{
    match expr {
        Expr::Constant(_) => 1,
        Expr::Variable(_) => 1,
        Expr::Not(a) => sum(nodes(a), 1),
        Expr::All(es) => sum(all_nodes(es), 1),
        Expr::Any(es) => sum(all_nodes(es), 1),
        Expr::Compare(_, a, b) => {
            let left = nodes(a);
            let right = nodes(b);
            sum(sum(left, right), 1)
        }
        Expr::Sum(terms) => sum(term_nodes(terms), 1),
        Expr::Product(es) => sum(all_nodes(es), 1),
        Expr::Least(es) => sum(all_nodes(es), 1),
        Expr::Greatest(es) => sum(all_nodes(es), 1),
        Expr::Count(es) => sum(all_nodes(es), 1),
        Expr::Choose(cases, other) => {
            let first = case_nodes(cases);
            let last = nodes(other);
            sum(sum(first, last), 1)
        }
    }
}

/// A sum that stops at one more than the limit.
pub(crate) fn sum(a: u64, b: u64) -> u64
    ensures { result ≡ min 1000001 (a + b) }
{
    a.saturating_add(b).min(TOO_MANY)
}

#[cycle(nodes)]
fn all_nodes(es: &[Expr<VarId>]) -> u64
    ensures { result ≡ min 1000001 (nodes_in es.now) }
{
    let mut total = 0;
    for e in es {
        total = sum(total, nodes(e));
    }
    total
}

#[cycle(nodes)]
fn term_nodes(terms: &[(bool, Expr<VarId>)]) -> u64
    ensures { result ≡ min 1000001 (term_nodes_in terms.now) }
{
    let mut total = 0;
    for (_, e) in terms {
        total = sum(total, nodes(e));
    }
    total
}

#[cycle(nodes)]
fn case_nodes(cases: &[(Expr<VarId>, Expr<VarId>)]) -> u64
    ensures { result ≡ min 1000001 (case_nodes_in cases.now) }
{
    let mut total = 0;
    for (test, value) in cases {
        let first = nodes(test);
        let second = nodes(value);
        total = sum(total, sum(first, second));
    }
    total
}
