//! The entries of an expression.

ghost use Rattle.std.specs.Prelude.{◌≡◌, ◌≤◌, IfOk, IfErr, OnOk, length};
ghost use Rattle.typed_expr.specs.declared.expr.Expr.{out-Expr};
ghost use Rattle.ar_base.specs.Numbers.{VarId as VarNumber};
ghost use Rattle.eq_build.specs.Builds.{Builds};
ghost use Rattle.eq_build.specs.BuildsInside.{NeedsMore, most_gates};
ghost use Rattle.eq_build.specs.Views.{row_read, entry_of, entries_in, gates_in, built_of, StopsBuilding};
ghost use Rattle.eq_core.specs.Gates.{Always as AlwaysTaken};
ghost use Rattle.eq_build.specs.Answers.{AnswersEntries, AnswersEach, AnswersParts, AnswersCases};

use crate::entries::{BuildFault, Entry};
use crate::forms::{chosen, combined, folded, joined, led, summed, turned};
use crate::steps::Step;
use ar_base::VarId;
use domains::Value;
use eq_core::{Gate, Operand};
use std::alloc::Global;
use typed_expr::Expr;

/// The entries of an expression, where the variables have these rows of entries: for each value that it has somewhere,
/// the operand that tells where. The gates that they need go behind the others. A variable without a row has no entry.
///
/// Gates comes only where more gates are needed than a table may have; the other error is want of memory.
pub fn build(
    alloc: Global,
    gates: &mut Vec<Gate>,
    rows: &[Vec<Entry>],
    expr: &Expr<VarId>,
) -> Result<Vec<Entry>, BuildFault>
    requires { length gates.old.items ≤ most_gates }
    ensures built { IfOk result (λ entries. Builds (row_read rows.now) (gates_in gates.old.items)
        (out-Expr VarNumber expr.now) (built_of entries.items gates.new.items)) }
    ensures few { OnOk result (length gates.new.items ≤ most_gates) }
    ensures gates { IfErr result (λ fault. StopsBuilding fault
        (NeedsMore (row_read rows.now) (gates_in gates.old.items) (out-Expr VarNumber expr.now))) }
{
    entries_of(alloc, gates, rows, expr)
}

// The same, in one clause.
#[cycle(building)]
fn entries_of(
    alloc: Global,
    gates: &mut Vec<Gate>,
    rows: &[Vec<Entry>],
    expr: &Expr<VarId>,
) -> Result<Vec<Entry>, BuildFault>
    requires { length gates.old.items ≤ most_gates }
    ensures { AnswersEntries rows.now (gates_in gates.old.items) (out-Expr VarNumber expr.now)
        result gates.new.items }
{
    match expr {
        Expr::Constant(v) => Ok(Vec::from_slice(alloc, &[always(*v)])?),
        Expr::Variable(x) => match rows.get(x.n as usize) {
            Some(row) => Ok(Vec::from_slice(alloc, row)?),
            // a variable without a row has no entry
            None => Ok(Vec::new(alloc)),
        },
        Expr::Not(a) => {
            let entries = entries_of(alloc, gates, rows, a)?;
            turned(alloc, gates, &entries)
        }
        Expr::All(es) => {
            let operands = each(alloc, gates, rows, es)?;
            joined(alloc, gates, true, &operands)
        }
        Expr::Any(es) => {
            let operands = each(alloc, gates, rows, es)?;
            joined(alloc, gates, false, &operands)
        }
        Expr::Compare(relation, a, b) => {
            let left = entries_of(alloc, gates, rows, a)?;
            let right = entries_of(alloc, gates, rows, b)?;
            combined(alloc, gates, Step::Compared(*relation), &left, &right)
        }
        Expr::Sum(parts) => {
            let operands = signed(alloc, gates, rows, parts)?;
            summed(alloc, gates, &[always(Value::Whole(0))], &operands)
        }
        Expr::Product(es) => {
            let operands = each(alloc, gates, rows, es)?;
            folded(
                alloc,
                gates,
                &[always(Value::Whole(1))],
                Step::Times,
                &operands,
            )
        }
        Expr::Least(es) => {
            let operands = each(alloc, gates, rows, es)?;
            led(alloc, gates, Step::Lesser, &operands)
        }
        Expr::Greatest(es) => {
            let operands = each(alloc, gates, rows, es)?;
            led(alloc, gates, Step::Greater, &operands)
        }
        Expr::Count(es) => {
            let operands = each(alloc, gates, rows, es)?;
            folded(
                alloc,
                gates,
                &[always(Value::Whole(0))],
                Step::Counted,
                &operands,
            )
        }
        Expr::Choose(cases, other) => {
            let pairs = tested(alloc, gates, rows, cases)?;
            let rest = entries_of(alloc, gates, rows, other)?;
            chosen(alloc, gates, pairs, rest)
        }
    }
}

// The entries of each operand, from left to right.
#[cycle(building)]
fn each(
    alloc: Global,
    gates: &mut Vec<Gate>,
    rows: &[Vec<Entry>],
    es: &[Expr<VarId>],
) -> Result<Vec<Vec<Entry>>, BuildFault>
    requires { length gates.old.items ≤ most_gates }
    ensures { AnswersEach rows.now (gates_in gates.old.items) es.now result gates.new.items }
{
    let mut operands = Vec::new(alloc);
    for e in es {
        let entries = entries_of(alloc, gates, rows, e)?;
        operands.push(entries)?;
    }
    Ok(operands)
}

// The entries of each part of a sum, with its sign.
#[cycle(building)]
fn signed(
    alloc: Global,
    gates: &mut Vec<Gate>,
    rows: &[Vec<Entry>],
    parts: &[(bool, Expr<VarId>)],
) -> Result<Vec<(bool, Vec<Entry>)>, BuildFault>
    requires { length gates.old.items ≤ most_gates }
    ensures { AnswersParts rows.now (gates_in gates.old.items) parts.now result gates.new.items }
{
    let mut operands = Vec::new(alloc);
    for (plus, e) in parts {
        let entries = entries_of(alloc, gates, rows, e)?;
        operands.push((*plus, entries))?;
    }
    Ok(operands)
}

// The entries of each case's test and value.
#[cycle(building)]
fn tested(
    alloc: Global,
    gates: &mut Vec<Gate>,
    rows: &[Vec<Entry>],
    cases: &[(Expr<VarId>, Expr<VarId>)],
) -> Result<Vec<(Vec<Entry>, Vec<Entry>)>, BuildFault>
    requires { length gates.old.items ≤ most_gates }
    ensures { AnswersCases rows.now (gates_in gates.old.items) cases.now result gates.new.items }
{
    let mut pairs = Vec::new(alloc);
    for (test, value) in cases {
        let tests = entries_of(alloc, gates, rows, test)?;
        let values = entries_of(alloc, gates, rows, value)?;
        pairs.push((tests, values))?;
    }
    Ok(pairs)
}

// The entry of a value that is always taken.
fn always(value: Value) -> Entry
    ensures { entry_of result ≡ record { value = value; operand = AlwaysTaken } }
{
    Entry {
        value,
        operand: Operand::Always,
    }
}
