//! Sizes of expressions and instructions.

ghost use Rattle.std.specs.Prelude.{◌≡◌, ◌+◌, ℕ, List, map, sum, Bool};
ghost use Rattle.ar_syntax.specs.declared.expressions.RawExpr.{RawExpr as Expr};
ghost use Rattle.ar_syntax.specs.declared.instructions.Instr.{Instr as Step};
ghost use Rattle.unit_rules.specs.Sizes.{expr_size as size_of, instr_size as size_of_step};
ghost use Rattle.unit_rules.specs.Counting.{capped};

use crate::counts::both;
use ar_syntax::{Instr, RawExpr, RawForm};

/// The size of an expression.
#[cycle(sized)]
pub(crate) fn expr_size(expr: &RawExpr) -> u64
    ensures { result ≡ capped (size_of expr.now) }
{
    match &expr.form {
        RawForm::Truth(_) | RawForm::Whole(_) | RawForm::Real => 1,
        RawForm::Path(_) => 2,
        RawForm::Not(a) | RawForm::Minus(a) => both(1, expr_size(a)),
        RawForm::All(es)
        | RawForm::Any(es)
        | RawForm::Product(es)
        | RawForm::Least(es)
        | RawForm::Greatest(es)
        | RawForm::Count(es) => both(1, listed(es)),
        RawForm::Compare(_, a, b) => both(1, both(expr_size(a), expr_size(b))),
        RawForm::Sum(parts) => both(1, summed(parts)),
        RawForm::Choose(cases, other) => both(1, both(chosen(cases), expr_size(other))),
    }
}

// The sizes of expressions together.
#[cycle(sized)]
fn listed(es: &[RawExpr]) -> u64
    ensures { result ≡ capped (sum (map size_of es.now)) }
{
    let mut size = 0;
    for e in es {
        size = both(size, expr_size(e));
    }
    size
}

// The sizes of the terms of a sum together.
#[cycle(sized)]
fn summed(parts: &[(bool, RawExpr)]) -> u64
    ensures { result ≡ capped (sum (map (λ (p : Bool × Expr). size_of p.1) parts.now)) }
{
    let mut size = 0;
    for (_, e) in parts {
        size = both(size, expr_size(e));
    }
    size
}

// The sizes of the cases of a choice together.
#[cycle(sized)]
fn chosen(cases: &[(RawExpr, RawExpr)]) -> u64
    ensures { result ≡ capped (sum (map (λ (c : Expr × Expr). size_of c.0 + size_of c.1)
        cases.now)) }
{
    let mut size = 0;
    for (test, value) in cases {
        size = both(size, both(expr_size(test), expr_size(value)));
    }
    size
}

/// The size of an instruction.
#[cycle(stepped)]
pub(crate) fn instr_size(instr: &Instr) -> u64
    ensures { result ≡ capped (size_of_step instr.now) }
{
    match instr {
        Instr::Skip => 1,
        Instr::Assign(_, value) => both(2, expr_size(value)),
        Instr::Tie(_, _) => 3,
        Instr::If(test, first, None) => both(1, both(expr_size(test), instr_size(first))),
        Instr::If(test, first, Some(second)) => both(
            1,
            both(expr_size(test), both(instr_size(first), instr_size(second))),
        ),
        Instr::All(instrs) => both(1, steps(instrs)),
    }
}

// The sizes of instructions together.
#[cycle(stepped)]
fn steps(instrs: &[Instr]) -> u64
    ensures { result ≡ capped (sum (map size_of_step instrs.now)) }
{
    let mut size = 0;
    for instr in instrs {
        size = both(size, instr_size(instr));
    }
    size
}
