//! The variables that guards and actions name.

ghost use Rattle.std.specs.Prelude.{IfOk};
ghost use Rattle.typed_expr.specs.Mentions.{Mentions};
ghost use Rattle.typed_expr.specs.declared.expr.Expr.{out-Expr};
ghost use Rattle.ar_base.specs.Numbers.{VarId as Numbered};
ghost use Rattle.gts_core.specs.Adding.{HasThose};
ghost use Rattle.mode_search.specs.Named.{OneNames};

use ar_base::{Memory, VarId};
use gts_core::{Assign, add_named, add_tests};
use std::alloc::Global;
use typed_expr::Expr;

// The variables that a guard names, in any order and as often as they stand in it.
pub(crate) fn guard_names(alloc: Global, guard: &Expr<VarId>) -> Result<Vec<VarId>, Memory>
    ensures { IfOk result (λ names. HasThose (λ x. Mentions x (out-Expr Numbered guard.now))
        names.items) }
{
    let mut names = Vec::new(alloc);
    add_named(guard, &mut names)?;
    Ok(names)
}

// The variables that the assignments of an action name, as their targets, in their values and in their conditions, in any order
// and as often as they stand in them.
pub(crate) fn action_names(alloc: Global, action: &[Assign]) -> Result<Vec<VarId>, Memory>
    ensures { IfOk result (λ names. HasThose (OneNames action.now) names.items) }
{
    let mut names = Vec::new(alloc);
    for assign in action {
        names.push(assign.target)?;
        add_named(&assign.value, &mut names)?;
        add_tests(&assign.when, &mut names)?;
    }
    Ok(names)
}
