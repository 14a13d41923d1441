//! The observers that are looked at after a step.

ghost use Rattle.std.specs.Prelude.{IfOk};
ghost use Rattle.std.specs.List.Sorted.{IsNonDecreasingBy};
ghost use Rattle.gts_core.specs.declared.system.GtsParts.{GtsParts as Parts};
ghost use Rattle.replayer.specs.Observing.{AreInOrder, AreTouched};

use ar_base::{Memory, VarId, paired};
use std::alloc::Global;

/// The observers that name one of these variables, ascending, by the pairs of a variable and an observer that names it.
pub(crate) fn touched(
    alloc: Global,
    pairs: &[(u32, u32)],
    variables: &[VarId],
) -> Result<Vec<u32>, Memory>
    requires { IsNonDecreasingBy (λ q. q.0) pairs.now }
    ensures { IfOk result (λ all. (p : Parts) → AreInOrder p pairs.now
        → AreTouched p variables.now all.items) }
{
    let mut firsts = Vec::new(alloc);
    for variable in variables {
        firsts.push(variable.n)?;
    }
    let all = paired(alloc, pairs, &firsts)?;
    Ok(all)
}
