//! The first state variable of each unit.

ghost use Rattle.std.specs.Prelude.{length, IfOk};
ghost use Rattle.gts_core.specs.Sound.{IsSound};
ghost use Rattle.mode_search.specs.Events.{AreFirstStates};

use ar_base::{Memory, VarId};
use gts_core::GtsParts;
use std::alloc::Global;

/// For each unit its least state variable, or None where it has none.
pub fn first_states(alloc: Global, parts: &GtsParts) -> Result<Vec<Option<VarId>>, Memory>
    requires { IsSound parts.now }
    ensures { IfOk result (λ firsts. AreFirstStates parts.now (length parts.now.variables.items)
        firsts.items) }
{
    let mut firsts = vec![in alloc; None; parts.units.len()]?;
    for (n, variable) in parts.variables.iter().enumerate() {
        let unit = variable.unit.n as usize;
        let number = VarId::new(n as u32);
        let own = if variable.is_state {
            Some(number)
        } else {
            None
        };
        let first = firsts[unit].or(own);
        firsts[unit] = first;
    }
    Ok(firsts)
}
