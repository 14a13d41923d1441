//! Whether every variable that an assignment names is marked.

ghost use Rattle.std.specs.Prelude.{◌≡◌, ◌&&◌, ℕ, true};
ghost use Rattle.ar_base.specs.Lists.{Stands};
ghost use Rattle.ar_base.specs.Numbers.{VarId as Numbered};
ghost use Rattle.typed_expr.specs.Mentions.{Mentions, Some_mentions, Parts_mention, Cases_mention};
ghost use Rattle.typed_expr.specs.declared.expr.Expr.{out-Expr};
ghost use Rattle.ar_meaning.specs.Dependence.{Names, Tests};
ghost use Rattle.ar_meaning.specs.Found.{IsAnswer};
ghost use Rattle.gts_core.specs.View.{assign_of};
ghost use Rattle.flow_changes.specs.Known.{MarksEach};

use crate::known::is_set;
use ar_base::VarId;
use gts_core::Assign;
use typed_expr::Expr;

// Whether every variable that the assignment names in its value or in a condition is marked.
pub(crate) fn names_marked(assign: &Assign, marks: &[bool]) -> bool
    ensures { IsAnswer result ((n : ℕ) → Names (assign_of assign.now) n → Stands marks.now n true) }
{
    if !is_marked(&assign.value, marks) {
        return false;
    }
    tests_marked(&assign.when, marks)
}

// The same for the conditions of an assignment.
fn tests_marked(tests: &[(Expr<VarId>, bool)], marks: &[bool]) -> bool
    ensures { IsAnswer result (MarksEach marks.now (λ x. Tests x tests.now)) }
{
    for (test, _) in tests {
        if !is_marked(test, marks) {
            return false;
        }
    }
    true
}

// The same for an expression.
#[cycle(marked)]
fn is_marked(expr: &Expr<VarId>, marks: &[bool]) -> bool
    ensures { IsAnswer result (MarksEach marks.now (λ x. Mentions x (out-Expr Numbered expr.now))) }
{
    match expr {
        Expr::Constant(_) => true,
        Expr::Variable(x) => is_set(marks, x.n as usize),
        Expr::Not(a) => is_marked(a, marks),
        Expr::All(es) => some_marked(es, marks),
        Expr::Any(es) => some_marked(es, marks),
        Expr::Compare(_, a, b) => both(is_marked(a, marks), is_marked(b, marks)),
        Expr::Sum(parts) => parts_marked(parts, marks),
        Expr::Product(es) => some_marked(es, marks),
        Expr::Least(es) => some_marked(es, marks),
        Expr::Greatest(es) => some_marked(es, marks),
        Expr::Count(es) => some_marked(es, marks),
        Expr::Choose(cases, other) => both(cases_marked(cases, marks), is_marked(other, marks)),
    }
}

// Whether both are true.
fn both(a: bool, b: bool) -> bool
    ensures { result ≡ (a && b) }
{
    a && b
}

// The same for each of these expressions.
#[cycle(marked)]
fn some_marked(es: &[Expr<VarId>], marks: &[bool]) -> bool
    ensures { IsAnswer result (MarksEach marks.now (λ x. Some_mentions x es.now)) }
{
    for e in es {
        if !is_marked(e, marks) {
            return false;
        }
    }
    true
}

// The same for the parts of a sum.
#[cycle(marked)]
fn parts_marked(parts: &[(bool, Expr<VarId>)], marks: &[bool]) -> bool
    ensures { IsAnswer result (MarksEach marks.now (λ x. Parts_mention x parts.now)) }
{
    for (_, e) in parts {
        if !is_marked(e, marks) {
            return false;
        }
    }
    true
}

// The same for the cases of a choice.
#[cycle(marked)]
fn cases_marked(cases: &[(Expr<VarId>, Expr<VarId>)], marks: &[bool]) -> bool
    ensures { IsAnswer result (MarksEach marks.now (λ x. Cases_mention x cases.now)) }
{
    for (test, value) in cases {
        if !both(is_marked(test, marks), is_marked(value, marks)) {
            return false;
        }
    }
    true
}
