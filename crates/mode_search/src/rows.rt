//! The ways of each variable.

ghost use Rattle.std.specs.Prelude.{[], IfOk};
ghost use Rattle.mode_search.specs.Rows.{AreVariableRows, HaveVariablesBelow};

use crate::KeptWay;
use ar_base::Memory;
use std::alloc::Global;

// For each variable the visible ways of which it is the mode variable, in order.
pub(crate) fn rows(
    alloc: Global,
    count: usize,
    kept: &[KeptWay],
) -> Result<Vec<Vec<KeptWay>>, Memory>
    requires { HaveVariablesBelow count kept.now }
    ensures { IfOk result (λ rows. AreVariableRows count kept.now rows.items) }
{
    let mut rows = empty_rows(alloc, count)?;
    for way in kept {
        if way.visible {
            rows[way.mode.variable.n as usize].push(*way)?;
        }
    }
    Ok(rows)
}

// So many rows without ways.
fn empty_rows(alloc: Global, count: usize) -> Result<Vec<Vec<KeptWay>>, Memory>
    ensures { IfOk result (λ rows. AreVariableRows count [] rows.items) }
{
    let mut rows = Vec::new(alloc);
    for _ in 0..count {
        rows.push(Vec::new(alloc))?;
    }
    Ok(rows)
}
