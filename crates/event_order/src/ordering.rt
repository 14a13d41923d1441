//! Trees, gates and an operand in the order of first use.

ghost use Rattle.std.specs.Prelude.{◌≤◌, IfOk, length, map};
ghost use Rattle.std.specs.List.{All};
ghost use Rattle.eq_core.specs.Ordered.{AreOrdered};
ghost use Rattle.eq_core.specs.ValuesInside.{IsBelow};
ghost use Rattle.eq_core.specs.Views.{gate_of, operand_of};
ghost use Rattle.mode_diagrams.specs.Trees.{AreNumbered, AreApart};
ghost use Rattle.mode_diagrams.specs.Costs.{HaveDifferentEvents};
ghost use Rattle.mode_diagrams.specs.Numbers.{HasFewEdges};
ghost use Rattle.event_order.specs.Ordered.{IsOrderedOf, IsDrawable};

use crate::numbering::Numbering;
use crate::numbers::Numbers;
use crate::renaming::{renamed, renamed_gates};
use crate::visiting::{Visit, first_uses};
use ar_base::{EventId, Memory};
use diagram_steps::NumberedTree;
use eq_core::{Gate, Operand};
use std::alloc::Global;

/// Trees, gates and an operand whose events are numbered anew, and the event that each number stands for.
#[derive(Drop)]
pub struct Ordered {
    /// The trees with events on which the operand rests. Their events are numbered from 0 on, tree by tree and edge by edge.
    pub trees: Vec<NumberedTree>,
    /// The gates, over new numbers of events. An event that none of these trees has got a number that no event has.
    pub gates: Vec<Gate>,
    /// The operand, over a new number of its event.
    pub root: Operand,
    /// For each new number the event that it stands for.
    pub names: Vec<EventId>,
}

/// The trees with events on which the operand rests, no others, and the gates, with the events numbered anew: tree by tree, in the order
/// in which the operand's gates use the trees first. The time is in proportion to the gates' operands and the trees' edges, but
/// for the sorting of each gate's operands. The error is want of memory.
pub fn order_events(
    alloc: Global,
    trees: &[NumberedTree],
    gates: &[Gate],
    root: Operand,
    visit: Visit,
) -> Result<Ordered, Memory>
    requires few { length trees.now ≤ 4294967295 }
    requires numbered { AreNumbered trees.now }
    requires apart { AreApart trees.now }
    requires different { HaveDifferentEvents trees.now }
    requires small { All HasFewEdges trees.now }
    requires ordered { AreOrdered (map gate_of gates.now) }
    requires root_in { IsBelow (length gates.now) (operand_of root) }
    ensures order { IfOk result (λ o. IsOrderedOf trees.now (map gate_of gates.now) (operand_of root) o) }
    ensures drawable { IfOk result (λ o. IsDrawable o) }
{
    let Numbering { trees, numbers } = first_uses(alloc, trees, gates, root, visit)?;
    let gates = renamed_gates(alloc, &numbers, gates)?;
    let root = renamed(&numbers, root);
    let Numbers { names, numbers: _ } = numbers;
    Ok(Ordered {
        trees,
        gates,
        root,
        names,
    })
}
