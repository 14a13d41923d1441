//! Two variables that are assigned to each other.

ghost use Rattle.std.specs.Prelude.{IfOk};
ghost use Rattle.written_forms.specs.Assigning.{SetsTo, SetsBoth};

use ar_base::{Memory, Place, VarId};
use gts_core::Act;
use std::alloc::Global;
use typed_expr::Expr;

/// The two assignments that a `:=:` becomes: of the second variable to the first, and then of the first to the second. Each
/// is at the place of the path that it assigns to. The error is want of memory.
pub fn both_ways(
    alloc: Global,
    first: VarId,
    at: Place,
    second: VarId,
    other: Place,
) -> Result<Act, Memory>
    ensures { IfOk result (SetsBoth first at second other) }
{
    let mut acts = Vec::new(alloc);
    acts.push(set_to(first, at, second))?;
    acts.push(set_to(second, other, first))?;
    Ok(Act::All(acts))
}

// The assignment of a variable to another one.
fn set_to(target: VarId, at: Place, value: VarId) -> Act
    ensures { SetsTo target at value result }
{
    Act::Set(target, Expr::Variable(value), at)
}
