//! The variables that expressions and assignments name, as pairs with a number.

ghost use Rattle.std.specs.Prelude.{IfOk};
ghost use Rattle.ar_base.specs.Lists.{IsOneOf};
ghost use Rattle.typed_expr.specs.Mentions.{Mentions};
ghost use Rattle.typed_expr.specs.declared.expr.Expr.{out-Expr};
ghost use Rattle.ar_base.specs.Numbers.{VarId as Numbered};
ghost use Rattle.gts_core.specs.Named.{ReadsVariable};
ghost use Rattle.flow_propagate.specs.Named.{AddsNamed};

use ar_base::{Memory, VarId};
use gts_core::{Assign, add_named, add_tests};
use typed_expr::Expr;

/// Adds a pair of a variable's number and this number for each variable that stands in the expression, as often as it stands
/// there.
///
/// The variables are gathered in `names`, in place of what it has, so that the caller of many expressions takes memory for
/// one list of names. The error is want of memory.
pub fn add_named_pairs(
    expr: &Expr<VarId>,
    number: u32,
    names: &mut Vec<VarId>,
    found: &mut Vec<(u32, u32)>,
) -> Result<(), Memory>
    ensures { IfOk result (λ _. AddsNamed number (λ x. Mentions x (out-Expr Numbered expr.now))
        found.old.items found.new.items) }
{
    names.clear();
    add_named(expr, names)?;
    add_each(names, number, found)
}

// Adds a pair for each variable that the assignment of this number names in its value or in a condition.
pub(crate) fn add_readers(
    assign: &Assign,
    number: u32,
    names: &mut Vec<VarId>,
    found: &mut Vec<(u32, u32)>,
) -> Result<(), Memory>
    ensures { IfOk result (λ _. AddsNamed number (ReadsVariable assign.now) found.old.items
        found.new.items) }
{
    names.clear();
    add_named(&assign.value, names)?;
    add_tests(&assign.when, names)?;
    add_each(names, number, found)
}

// Adds a pair for each of these variables.
fn add_each(names: &[VarId], number: u32, found: &mut Vec<(u32, u32)>) -> Result<(), Memory>
    ensures { IfOk result (λ _. AddsNamed number (λ x. IsOneOf names.now x) found.old.items
        found.new.items) }
{
    for name in names {
        found.push((name.n, number))?;
    }
    Ok(())
}
