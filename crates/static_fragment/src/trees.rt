//! The trees of the mode variables.

ghost use Rattle.std.specs.Prelude.{◌≡◌, length, IfOk};
ghost use Rattle.gts_core.specs.Sound.{IsSound};
ghost use Rattle.static_fragment.specs.Stages.{AreFromWays, NoneAgain};
ghost use Rattle.static_fragment.specs.Trees.{AreTreesBelow};

use ar_base::{Memory, VarId};
use gts_core::GtsParts;
use mode_search::Reach;
use mode_trees::{Forest, ModeTree, edges_below};
use std::alloc::Global;

// The trees of the state variables of units that move, by number.
pub(crate) fn forest(
    alloc: Global,
    parts: &GtsParts,
    moving: &[bool],
    reaches: &[Reach],
) -> Result<Forest, Memory>
    requires sound { IsSound parts.now }
    requires units { length moving.now ≡ length parts.now.units.items }
    requires found { AreFromWays parts.now reaches.now }
    requires once { NoneAgain reaches.now }
    ensures { IfOk result (λ f. AreTreesBelow parts.now moving.now reaches.now
        (length parts.now.variables.items) f.trees.items) }
{
    let mut trees = Vec::new(alloc);
    for (n, variable) in parts.variables.iter().enumerate() {
        if variable.is_state && moving[variable.unit.n as usize] {
            let edges = edges_below(alloc, variable.value, &reaches[n].edges)?;
            trees.push(ModeTree {
                variable: VarId::new(n as u32),
                first: variable.value,
                edges,
            })?;
        }
    }
    Ok(Forest { trees })
}
