//! How many nodes the assignments of instructions have.

ghost use Rattle.std.specs.Prelude.{◌≡◌, min};
ghost use Rattle.std.specs.List.{flat_map};
ghost use Rattle.gts_core.specs.Bound.{NumberedConditions, assigns_under};
ghost use Rattle.gts_flatten.specs.Sizes.{assigns_nodes, condition_nodes};

use crate::sizes::{nodes, sum};
use gts_core::Act;

/// The number of nodes of the assignments of an instruction, with those of the conditions of each,
/// or one more than the limit where there are more. The conditions round the instruction have
/// `above` nodes.
#[cycle(act_nodes)]
pub(crate) fn act_nodes(act: &Act, above: u64) -> u64
    ensures { (cs : NumberedConditions) → above ≡ min 1000001 (condition_nodes cs)
        → result ≡ min 1000001 (assigns_nodes (assigns_under act.now cs)) }
{
    match act {
        Act::Skip => 0,
        Act::Set(_, value, _) => sum(above, nodes(value)),
        Act::If(test, first, second) => {
            let inner = sum(above, nodes(test));
            let here = act_nodes(first, inner);
            let there = act_nodes(second, inner);
            sum(here, there)
        }
        Act::All(acts) => acts_nodes(acts, above),
    }
}

// The same of instructions one after the other.
#[cycle(act_nodes)]
pub(crate) fn acts_nodes(acts: &[Act], above: u64) -> u64
    ensures { (cs : NumberedConditions) → above ≡ min 1000001 (condition_nodes cs)
        → result ≡ min 1000001 (assigns_nodes (flat_map (λ a. assigns_under a cs) acts.now)) }
{
    let mut total = 0;
    for act in acts {
        total = sum(total, act_nodes(act, above));
    }
    total
}
