//! The text of expressions.

ghost use Rattle.std.specs.Prelude.{true, ◌++◌, codes, map};
ghost use Rattle.ar_io.specs.Handing.{Writes};
ghost use Rattle.std.specs.List.{concat};
ghost use Rattle.ar_base.specs.Texts.{separated};
ghost use Rattle.gts_core.specs.Printed.{expr_text, summed, case_form, cases_form};

use crate::pieces::{either, relation_text, sign, variable_path, write_value};
use crate::system::GtsParts;
use ar_base::VarId;
use ar_io::{Sink, SinkFailed, write_text};
use typed_expr::Expr;

// An expression.
#[cycle(expression)]
pub(crate) fn expression<K: Sink>(
    out: &mut K,
    parts: &GtsParts,
    expr: &Expr<VarId>,
) -> Result<(), SinkFailed>
    ensures { Writes (K.state out.old) (K.state out.new) (expr_text parts.now expr.now) result }
{
    match expr {
        Expr::Constant(v) => write_value(out, parts, *v),
        Expr::Variable(x) => write_text(out, variable_path(parts, x.n)),
        Expr::Not(a) => {
            write_text(out, "(not ")?;
            expression(out, parts, a)?;
            write_text(out, ")")
        }
        Expr::All(es) => listed(out, parts, "(", es, " and "),
        Expr::Any(es) => listed(out, parts, "(", es, " or "),
        Expr::Compare(relation, a, b) => {
            write_text(out, "(")?;
            expression(out, parts, a)?;
            write_text(out, relation_text(*relation))?;
            expression(out, parts, b)?;
            write_text(out, ")")
        }
        Expr::Sum(all) => {
            write_text(out, "(")?;
            terms(out, parts, all)?;
            write_text(out, ")")
        }
        Expr::Product(es) => listed(out, parts, "(", es, " * "),
        Expr::Least(es) => listed(out, parts, "min(", es, ", "),
        Expr::Greatest(es) => listed(out, parts, "max(", es, ", "),
        Expr::Count(es) => listed(out, parts, "count(", es, ", "),
        Expr::Choose(choices, other) => {
            let one = choices.len() == 1;
            chosen(out, parts, one, choices)?;
            expression(out, parts, other)?;
            write_text(out, either(one, ")", "}"))
        }
    }
}

// The cases of a choice between what stands round them, in the form for one or for another number
// of them.
#[cycle(expression)]
fn chosen<K: Sink>(
    out: &mut K,
    parts: &GtsParts,
    one: bool,
    choices: &[(Expr<VarId>, Expr<VarId>)],
) -> Result<(), SinkFailed>
    ensures { Writes (K.state out.old) (K.state out.new)
        (cases_form one (map (λ c. (expr_text parts.now c.0, expr_text parts.now c.1)) choices.now))
        result }
{
    write_text(out, either(one, "", "switch {"))?;
    cases(out, parts, one, choices)?;
    write_text(out, either(one, "", "default: "))
}

// Expressions in brackets, with the separator between each two of them.
#[cycle(expression)]
fn listed<K: Sink>(
    out: &mut K,
    parts: &GtsParts,
    opening: &str,
    es: &[Expr<VarId>],
    separator: &str,
) -> Result<(), SinkFailed>
    ensures { Writes (K.state out.old) (K.state out.new)
        (opening.now ++ separated true separator.now (map (expr_text parts.now) es.now)
        ++ codes ")") result }
{
    write_text(out, opening)?;
    operands(out, parts, es, separator)?;
    write_text(out, ")")
}

// Expressions with the separator between each two of them.
#[cycle(expression)]
fn operands<K: Sink>(
    out: &mut K,
    parts: &GtsParts,
    es: &[Expr<VarId>],
    separator: &str,
) -> Result<(), SinkFailed>
    ensures { Writes (K.state out.old) (K.state out.new)
        (separated true separator.now (map (expr_text parts.now) es.now)) result }
{
    let mut first = true;
    for e in es {
        write_text(out, either(first, "", separator))?;
        expression(out, parts, e)?;
        first = false;
    }
    Ok(())
}

// The terms of a sum, each with what stands before it.
#[cycle(expression)]
fn terms<K: Sink>(
    out: &mut K,
    parts: &GtsParts,
    all: &[(bool, Expr<VarId>)],
) -> Result<(), SinkFailed>
    ensures { Writes (K.state out.old) (K.state out.new)
        (summed true (map (λ p. (p.0, expr_text parts.now p.1)) all.now)) result }
{
    let mut first = true;
    for (plus, e) in all {
        write_text(out, sign(first, *plus))?;
        expression(out, parts, e)?;
        first = false;
    }
    Ok(())
}

// The cases of a choice, in the form for one or for another number of them.
#[cycle(expression)]
fn cases<K: Sink>(
    out: &mut K,
    parts: &GtsParts,
    one: bool,
    choices: &[(Expr<VarId>, Expr<VarId>)],
) -> Result<(), SinkFailed>
    ensures { Writes (K.state out.old) (K.state out.new)
        (concat (map (case_form one) (map (λ c. (expr_text parts.now c.0, expr_text parts.now c.1))
        choices.now))) result }
{
    for (test, value) in choices {
        write_text(out, either(one, "(if ", "case "))?;
        expression(out, parts, test)?;
        write_text(out, either(one, " then ", ": "))?;
        expression(out, parts, value)?;
        write_text(out, either(one, " else ", " "))?;
    }
    Ok(())
}
