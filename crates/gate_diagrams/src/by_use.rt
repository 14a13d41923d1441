//! The least firable sets of an operand, drawn over trees in the order in which its gates use them.

ghost use Rattle.std.specs.Prelude.{◌≤◌, IfOk, length, map};
ghost use Rattle.std.specs.List.{All};
ghost use Rattle.eq_core.specs.Ordered.{AreOrdered};
ghost use Rattle.eq_core.specs.ValuesInside.{IsBelow};
ghost use Rattle.eq_core.specs.Views.{gate_of, operand_of};
ghost use Rattle.mode_diagrams.specs.Trees.{AreNumbered, AreApart};
ghost use Rattle.mode_diagrams.specs.Costs.{HaveDifferentEvents};
ghost use Rattle.mode_diagrams.specs.Numbers.{HasFewEdges};
ghost use Rattle.coherent_cuts.specs.Gates.{HasLeastFirable};

use crate::listed::{MOST_DIAGRAMS, least_within};
use diagram_steps::NumberedTree;
use eq_core::{Gate, Operand};
use event_order::{Visit, order_events};
use mode_diagrams::{Listed, Undrawn};
use named_families::named_family;
use std::alloc::Global;
use zdd_ops::Ops;

// The most families, and the most diagrams, of the first attempt.
const FEW_DIAGRAMS: u32 = 131_072;

/// The least firable sets of at most as many events as are asked for at which the operand is true, in a store of their own.
/// Operands are visited as they stand where that takes few families or diagrams, else the least deep ones first: of most
/// models one of the two takes few.
pub(crate) fn least_by_use(
    alloc: Global,
    trees: &[NumberedTree],
    gates: &[Gate],
    root: Operand,
    order: Option<u32>,
) -> Result<Listed, Undrawn>
    requires few { length trees.now ≤ 4294967295 }
    requires numbered { AreNumbered trees.now }
    requires apart { AreApart trees.now }
    requires different { HaveDifferentEvents trees.now }
    requires small { All HasFewEdges trees.now }
    requires ordered { AreOrdered (map gate_of gates.now) }
    requires root_in { IsBelow (length gates.now) (operand_of root) }
    ensures { IfOk result
        (λ l. HasLeastFirable order trees.now (map gate_of gates.now) (operand_of root) l) }
{
    let first = least_visited(
        alloc,
        trees,
        gates,
        root,
        order,
        Visit::AsWritten,
        FEW_DIAGRAMS,
    );
    match first {
        Err(Undrawn::Beyond) => least_visited(
            alloc,
            trees,
            gates,
            root,
            order,
            Visit::ShallowFirst,
            MOST_DIAGRAMS,
        ),
        answer => answer,
    }
}

// The same where operands are visited so: the events are numbered anew, and the sets that are found are named again.
fn least_visited(
    alloc: Global,
    trees: &[NumberedTree],
    gates: &[Gate],
    root: Operand,
    order: Option<u32>,
    visit: Visit,
    most: u32,
) -> Result<Listed, Undrawn>
    requires limit { most ≤ 16777216 }
    requires few { length trees.now ≤ 4294967295 }
    requires numbered { AreNumbered trees.now }
    requires apart { AreApart trees.now }
    requires different { HaveDifferentEvents trees.now }
    requires small { All HasFewEdges trees.now }
    requires ordered { AreOrdered (map gate_of gates.now) }
    requires root_in { IsBelow (length gates.now) (operand_of root) }
    ensures { IfOk result
        (λ l. HasLeastFirable order trees.now (map gate_of gates.now) (operand_of root) l) }
{
    let anew = order_events(alloc, trees, gates, root, visit)?;
    let least = least_within(alloc, &anew.trees, &anew.gates, anew.root, order, most)?;
    let mut ops = Ops::new(alloc, most);
    let root = named_family(alloc, &mut ops, &anew.names, &least.store, least.root)?;
    Ok(Listed {
        store: ops.into_store(),
        root,
    })
}
