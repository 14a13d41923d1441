//! The steps that stand.

ghost use Rattle.std.specs.Prelude.{◌≡◌, ◌<◌, ◌++◌, ◌∷◌, [], IsOk, OnOk};
ghost use Rattle.std.specs.Vec.{vec_len, vec_capacity};

use crate::changes::StepChanges;
use ar_base::Memory;

/// Makes room for one step more.
pub(crate) fn make_room(steps: &mut Vec<StepChanges>) -> Result<(), Memory>
    ensures items { steps.new.items ≡ steps.old.items }
    ensures room { OnOk result (vec_len steps.new < vec_capacity steps.new) }
{
    steps.reserve(1)?;
    Ok(())
}

/// Keeps a step, for which there is room.
pub(crate) fn keep(steps: &mut Vec<StepChanges>, step: StepChanges) -> Result<(), Memory>
    requires { vec_len steps.old < vec_capacity steps.old }
    ensures ok { IsOk result }
    ensures items { steps.new.items ≡ steps.old.items ++ step ∷ [] }
{
    steps.push(step)?;
    Ok(())
}
