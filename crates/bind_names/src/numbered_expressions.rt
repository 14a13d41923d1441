//! Expressions by numbers.

ghost use Rattle.std.specs.Prelude.{◌<◌, length, List, IfOk};
ghost use Rattle.ar_base.specs.Lists.{Stands};
ghost use Rattle.typed_expr.specs.declared.expr.ValueKind.{ValueKind as Kind};
ghost use Rattle.hierarchy.specs.Models.{RootedModel};
ghost use Rattle.hierarchy.specs.Units.{UnitPath};
ghost use Rattle.source_meaning.specs.BoundExpressions.{IsBoundExpression};
ghost use Rattle.source_meaning.specs.Tested.{Tested, Everything};
ghost use Rattle.bind_scopes.specs.Scopes.{HasScopes};
ghost use Rattle.bind_names.specs.Settled.{AreSettled};
ghost use Rattle.bind_names.specs.Typed.{IsTypedIn};

use crate::all_values::Values;
use crate::leaves::UnitLeaves;
use ar_base::{Memory, UnitId, VarId};
use ar_syntax::RawExpr;
use bind_scopes::Scopes;
use std::alloc::Global;
use typed_expr::Expr;
use written_forms::translated;

/// The expression that a guard or the value of an observer of this unit becomes: variables by their
/// numbers, and the values of parameters and symbols. The error is want of memory.
pub fn expression(
    alloc: Global,
    scopes: &Scopes<'_>,
    values: &Values,
    unit: UnitId,
    written: &RawExpr,
) -> Result<Expr<VarId>, Memory>
    requires scopes { HasScopes scopes.now }
    requires in_range { unit.n < length scopes.now.tree.now.units.items }
    ensures bound { (m : RootedModel) (units : List UnitPath) (u : UnitPath) (k : Kind)
        → AreSettled m units scopes.now values.now → Stands units unit.n u
        → Tested m units u Everything k written.now
        → IfOk result (IsBoundExpression m units u written.now) }
    ensures typed { (m : RootedModel) (units : List UnitPath) (u : UnitPath) (k : Kind)
        → AreSettled m units scopes.now values.now → Stands units unit.n u
        → Tested m units u Everything k written.now
        → IfOk result (λ e. IsTypedIn scopes.now.tree.now e k) }
{
    let leaves = UnitLeaves {
        scopes,
        unit,
        parameters: &values.parameters,
    };
    translated(alloc, written, &leaves)
}
