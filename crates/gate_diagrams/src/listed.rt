//! The least firable sets of an operand, over trees as they stand.

ghost use Rattle.std.specs.Prelude.{◌≤◌, IfOk, length, map};
ghost use Rattle.std.specs.List.{All};
ghost use Rattle.eq_core.specs.Ordered.{AreOrdered};
ghost use Rattle.eq_core.specs.ValuesInside.{IsBelow};
ghost use Rattle.eq_core.specs.Views.{gate_of, operand_of};
ghost use Rattle.mode_diagrams.specs.Trees.{AreNumbered, AreApart};
ghost use Rattle.mode_diagrams.specs.Costs.{HaveDifferentEvents};
ghost use Rattle.mode_diagrams.specs.Numbers.{HasFewEdges};
ghost use Rattle.coherent_cuts.specs.Gates.{HasLeastFirable};
ghost use Rattle.gate_diagrams.specs.ByModes.{IsListedFamily};

use coherent_cuts::{is_coherent, least_cuts};
use diagram_steps::NumberedTree;
use eq_core::{Gate, Operand, cone};
use mode_diagrams::{Listed, Undrawn, copied, diagrams_up_to, draw, list_sets};
use std::alloc::Global;
use zdd_ops::Ops;

/// The most nodes of mode diagrams, and of the families beside the answer's. No caller's limit counts them.
pub(crate) const MOST_DIAGRAMS: u32 = 4_194_304;

/// The least firable sets of at most as many events as are asked for at which the operand is true, in a store of their own:
/// from products of least sets where nothing that it rests on is negated and they take at most `most` nodes, else from the
/// family of all its sets.
pub(crate) fn least_within(
    alloc: Global,
    trees: &[NumberedTree],
    gates: &[Gate],
    root: Operand,
    order: Option<u32>,
    most: u32,
) -> Result<Listed, Undrawn>
    requires limit { most ≤ 16777216 }
    requires few { length trees.now ≤ 4294967295 }
    requires numbered { AreNumbered trees.now }
    requires apart { AreApart trees.now }
    requires different { HaveDifferentEvents trees.now }
    requires small { All HasFewEdges trees.now }
    requires ordered { AreOrdered (map gate_of gates.now) }
    requires root_in { IsBelow (length gates.now) (operand_of root) }
    ensures { IfOk result
        (λ l. HasLeastFirable order trees.now (map gate_of gates.now) (operand_of root) l) }
{
    if is_coherent(alloc, gates, root)? {
        match least_cuts(alloc, trees, gates, root, order, most) {
            Err(Undrawn::Beyond) => {}
            answer => return answer,
        }
    }
    least_of_all(alloc, trees, gates, root, order, most)
}

// The least sets of the family of all sets at which the operand is true.
fn least_of_all(
    alloc: Global,
    trees: &[NumberedTree],
    gates: &[Gate],
    root: Operand,
    order: Option<u32>,
    most: u32,
) -> Result<Listed, Undrawn>
    requires limit { most ≤ 16777216 }
    requires few { length trees.now ≤ 4294967295 }
    requires numbered { AreNumbered trees.now }
    requires apart { AreApart trees.now }
    requires different { HaveDifferentEvents trees.now }
    requires small { All HasFewEdges trees.now }
    requires ordered { AreOrdered (map gate_of gates.now) }
    requires root_in { IsBelow (length gates.now) (operand_of root) }
    ensures { IfOk result
        (λ l. HasLeastFirable order trees.now (map gate_of gates.now) (operand_of root) l) }
{
    let listed = listed_at(alloc, trees, gates, root, order, most)?;
    let mut ops = Ops::new(alloc, most);
    let whole = copied(alloc, &mut ops, &listed.store, listed.root)?;
    let root = ops.minimal(whole)?;
    Ok(Listed {
        store: ops.into_store(),
        root,
    })
}

// The family of the firable sets of at most as many events as are asked for at which the operand is true, in a store of its
// own.
fn listed_at(
    alloc: Global,
    trees: &[NumberedTree],
    gates: &[Gate],
    root: Operand,
    order: Option<u32>,
    most: u32,
) -> Result<Listed, Undrawn>
    requires limit { most ≤ 16777216 }
    requires few { length trees.now ≤ 4294967295 }
    requires numbered { AreNumbered trees.now }
    requires apart { AreApart trees.now }
    requires different { HaveDifferentEvents trees.now }
    requires small { All HasFewEdges trees.now }
    requires ordered { AreOrdered (map gate_of gates.now) }
    requires root_in { IsBelow (length gates.now) (operand_of root) }
    ensures { IfOk result
        (λ l. IsListedFamily order trees.now (map gate_of gates.now) (operand_of root) l) }
{
    let marks = cone(alloc, gates, root)?;
    let mut diagrams = diagrams_up_to(alloc, trees, order, most)?;
    let drawn = draw(alloc, &mut diagrams, trees, gates, &marks, root)?;
    list_sets(alloc, trees, &diagrams, drawn)
}
