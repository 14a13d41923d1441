//! The mode variables of transitions.

ghost use Rattle.std.specs.Prelude.{◌≡◌, IfOk, MatchOption};
ghost use Rattle.ar_base.specs.Lists.{HasNo};
ghost use Rattle.ar_meaning.specs.FoundInside.{IsFirstOrNone};
ghost use Rattle.ar_firing.specs.Fragment.{IsStateOf};
ghost use Rattle.gts_core.specs.View.{net_of};
ghost use Rattle.mode_search.specs.Modes.{IsStateAt, IsNamedState, IsLeastVariable, lesser_of, IsAlone, plain_number, transition_of, IsWayMode};

use crate::names::{action_names, guard_names};
use ar_base::{Memory, UnitId, VarId};
use gts_core::{Assign, GtsParts};
use std::alloc::Global;
use typed_expr::Expr;

/// The mode variable of a transition, and whether its guard and its action name this one alone.
#[derive(Clone, Copy)]
pub struct WayMode {
    /// The mode variable.
    pub variable: VarId,
    /// Whether the guard names no other variable.
    pub guard_alone: bool,
    /// Whether the action names no other variable.
    pub action_alone: bool,
}

/// The mode variable of a transition of an event of this unit: the least state variable of the unit that the transition
/// names, or, where it names none, the least one of the unit, which the caller gives; or None where the unit has none.
/// The error is want of memory.
pub fn way_mode(
    alloc: Global,
    parts: &GtsParts,
    unit: UnitId,
    first: Option<VarId>,
    guard: &Expr<VarId>,
    action: &[Assign],
) -> Result<Option<WayMode>, Memory>
    requires { IsFirstOrNone (net_of parts.now).variables (IsStateOf unit.n) (plain_number first) }
    ensures { IfOk result (λ found. MatchOption found
        (HasNo (net_of parts.now).variables (IsStateOf unit.n))
        (IsWayMode parts.now unit.n (transition_of guard.now action.now))) }
{
    let in_guard = guard_names(alloc, guard)?;
    let in_action = action_names(alloc, action)?;
    let named = lesser(
        least_state(parts, unit, &in_guard),
        least_state(parts, unit, &in_action),
    );
    let Some(variable) = named.or(first) else {
        return Ok(None);
    };
    Ok(Some(WayMode {
        variable,
        guard_alone: is_alone(&in_guard, variable),
        action_alone: is_alone(&in_action, variable),
    }))
}

// The least state variable of the unit among these.
fn least_state(parts: &GtsParts, unit: UnitId, names: &[VarId]) -> Option<VarId>
    ensures { IsLeastVariable (IsNamedState parts.now unit.n names.now) result }
{
    let mut least = None;
    for name in names {
        least = lesser(least, as_state(parts, unit, *name));
    }
    least
}

// The variable, where it is a state variable of the unit.
fn as_state(parts: &GtsParts, unit: UnitId, name: VarId) -> Option<VarId>
    ensures { MatchOption result (IsStateAt parts.now unit.n name.n → ⊥)
        (λ found. (found ≡ name) × IsStateAt parts.now unit.n name.n) }
{
    let variable = parts.variables.get(name.n as usize)?;
    if variable.is_state && variable.unit.n == unit.n {
        Some(name)
    } else {
        None
    }
}

// The lesser of two numbers, where there are both.
fn lesser(a: Option<VarId>, b: Option<VarId>) -> Option<VarId>
    ensures { result ≡ lesser_of a b }
{
    match (a, b) {
        (Some(m), Some(n)) => if n.n < m.n { Some(n) } else { Some(m) },
        (Some(m), None) => Some(m),
        (None, other) => other,
    }
}

// Whether the variable is the only one of these.
fn is_alone(names: &[VarId], variable: VarId) -> bool
    ensures { IsAlone names.now variable.n result }
{
    for name in names {
        if name.n != variable.n {
            return false;
        }
    }
    true
}
