//! The pairs of a variable and an assignment that names it.

ghost use Rattle.std.specs.Prelude.{◌≡◌, map, IfOk};
ghost use Rattle.flow_propagate.specs.Plan.{plain_pair};

use ar_base::{AssignId, Memory, VarId};
use std::alloc::Global;

// The pairs by plain numbers.
pub(crate) fn plain_pairs(
    alloc: Global,
    readers: &[(VarId, AssignId)],
) -> Result<Vec<(u32, u32)>, Memory>
    ensures { IfOk result (λ pairs. pairs.items ≡ map plain_pair readers.now) }
{
    let mut pairs = Vec::new(alloc);
    for (variable, assign) in readers {
        pairs.push((variable.n, assign.n))?;
    }
    Ok(pairs)
}
