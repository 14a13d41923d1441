//! Instructions by numbers.

ghost use Rattle.std.specs.Prelude.{◌<◌, Bool, true, false, length, List, IfOk};
ghost use Rattle.ar_base.specs.Lists.{Stands, IsOneOf};
ghost use Rattle.ar_base.specs.Numbers.{NameId};
ghost use Rattle.ar_base.specs.declared.places.Place.{Place};
ghost use Rattle.ar_syntax.specs.declared.expressions.RawExpr.{RawExpr};
ghost use Rattle.ar_syntax.specs.declared.instructions.Instr.{out-Instr};
ghost use Rattle.ar_syntax.specs.declared.members.Member.TheOpen.{Local, Assert};
ghost use Rattle.gts_core.specs.declared.bound.Act.{out-Act};
ghost use Rattle.hierarchy.specs.Models.{RootedModel};
ghost use Rattle.hierarchy.specs.Units.{UnitPath};
ghost use Rattle.hierarchy.specs.Listing.{forms_at};
ghost use Rattle.source_meaning.specs.BoundActs.{IsBoundInstruction};
ghost use Rattle.bind_scopes.specs.Scopes.{HasScopes};
ghost use Rattle.bind_names.specs.Keeping.{KeepsInside};
ghost use Rattle.bind_names.specs.Settled.{AreSettled};
ghost use Rattle.bind_names.specs.Typed.{IsSoundIn};

use crate::all_values::Values;
use crate::leaves::UnitLeaves;
use ar_base::{Memory, UnitId};
use ar_syntax::Instr;
use bind_scopes::Scopes;
use gts_core::Act;
use std::alloc::Global;
use written_forms::acted;

/// The instruction that the action of a transition of this unit becomes. The error is want of
/// memory.
pub fn action(
    alloc: Global,
    scopes: &Scopes<'_>,
    values: &Values,
    unit: UnitId,
    written: &Instr,
) -> Result<Act, Memory>
    requires scopes { HasScopes scopes.now }
    requires in_range { unit.n < length scopes.now.tree.now.units.items }
    ensures bound { (m : RootedModel) (units : List UnitPath) (u : UnitPath) (x : NameId)
        (at : Place) (guard : RawExpr) → AreSettled m units scopes.now values.now
        → Stands units unit.n u → IsOneOf (forms_at m u) (Local x at guard written.now)
        → IfOk result (IsBoundInstruction m units u (out-Instr written.now)) }
    ensures sound { (m : RootedModel) (units : List UnitPath) (u : UnitPath) (x : NameId)
        (at : Place) (guard : RawExpr) → AreSettled m units scopes.now values.now
        → Stands units unit.n u → IsOneOf (forms_at m u) (Local x at guard written.now)
        → IfOk result (λ a. IsSoundIn scopes.now.tree.now true (out-Act a)) }
{
    bound(alloc, scopes, values, unit, written)
}

/// The instruction that an assertion of this unit becomes. The error is want of memory.
pub fn assertion(
    alloc: Global,
    scopes: &Scopes<'_>,
    values: &Values,
    unit: UnitId,
    written: &Instr,
) -> Result<Act, Memory>
    requires scopes { HasScopes scopes.now }
    requires in_range { unit.n < length scopes.now.tree.now.units.items }
    ensures bound { (m : RootedModel) (units : List UnitPath) (u : UnitPath)
        → AreSettled m units scopes.now values.now → Stands units unit.n u
        → IsOneOf (forms_at m u) (Assert written.now)
        → IfOk result (IsBoundInstruction m units u (out-Instr written.now)) }
    ensures sound { (m : RootedModel) (units : List UnitPath) (u : UnitPath)
        → AreSettled m units scopes.now values.now → Stands units unit.n u
        → IsOneOf (forms_at m u) (Assert written.now)
        → IfOk result (λ a. IsSoundIn scopes.now.tree.now false (out-Act a)) }
{
    bound(alloc, scopes, values, unit, written)
}

// The instruction that one becomes that breaks no rule, where all targets are state variables, or
// all are flows.
fn bound(
    alloc: Global,
    scopes: &Scopes<'_>,
    values: &Values,
    unit: UnitId,
    written: &Instr,
) -> Result<Act, Memory>
    requires scopes { HasScopes scopes.now }
    requires in_range { unit.n < length scopes.now.tree.now.units.items }
    ensures { (m : RootedModel) (units : List UnitPath) (u : UnitPath) (to_state : Bool)
        → AreSettled m units scopes.now values.now → Stands units unit.n u
        → KeepsInside m u to_state (out-Instr written.now)
        → IfOk result (λ a. IsBoundInstruction m units u (out-Instr written.now) a
        × IsSoundIn scopes.now.tree.now to_state (out-Act a)) }
{
    let leaves = UnitLeaves {
        scopes,
        unit,
        parameters: &values.parameters,
    };
    acted(alloc, written, &leaves)
}
