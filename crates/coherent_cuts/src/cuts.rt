//! The least firable sets of a coherent operand.

ghost use Rattle.std.specs.Prelude.{◌≡◌, ◌≤◌, List, IfOk, length, map, true};
ghost use Rattle.std.specs.List.{All};
ghost use Rattle.eq_core.specs.Gates.{Gate as GateOf};
ghost use Rattle.eq_core.specs.Ordered.{AreBelow, AreOrdered};
ghost use Rattle.eq_core.specs.ValuesInside.{IsBelow};
ghost use Rattle.eq_core.specs.Views.{all_needed, gate_of, operand_of};
ghost use Rattle.mode_diagrams.specs.Trees.{AreNumbered, AreApart};
ghost use Rattle.mode_diagrams.specs.Costs.{HaveDifferentEvents};
ghost use Rattle.mode_diagrams.specs.Numbers.{HasFewEdges};
ghost use Rattle.least_families.specs.Held.{AreLeastHeld};
ghost use Rattle.least_families.specs.Kept.{KeepsHeld, IsOperand};
ghost use Rattle.coherent_cuts.specs.Places.{ArePlaced};
ghost use Rattle.coherent_cuts.specs.Coherent.{ArePlain, IsCoherent};
ghost use Rattle.coherent_cuts.specs.Gates.{IsFamilyOfJoint, AreTabledOperands, EachTabled, HasLeastFirable};

use crate::exclusive::exclusive_pairs;
use crate::gates::{gate_family, operand_family};
use crate::paths::{EdgePlaces, places};
use diagram_steps::NumberedTree;
use eq_core::{Gate, Operand, cone};
use least_families::Memo;
use mode_diagrams::{Listed, Undrawn};
use std::alloc::Global;
use zdd_nodes::{NodeFault, NodeId};
use zdd_ops::Ops;

/// The least firable sets of at most as many events as are asked for at which the operand is true, in a store of their own.
/// Neither the operand nor those that it rests on are negated. Beyond comes where more than `most` families were made on the
/// way, which says nothing of the sets.
pub fn least_cuts(
    alloc: Global,
    trees: &[NumberedTree],
    gates: &[Gate],
    root: Operand,
    order: Option<u32>,
    most: u32,
) -> Result<Listed, Undrawn>
    requires limit { most ≤ 16777216 }
    requires few { length trees.now ≤ 4294967295 }
    requires numbered { AreNumbered trees.now }
    requires apart { AreApart trees.now }
    requires different { HaveDifferentEvents trees.now }
    requires small { All HasFewEdges trees.now }
    requires ordered { AreOrdered (map gate_of gates.now) }
    requires root_in { IsBelow (length gates.now) (operand_of root) }
    requires coherent { IsCoherent (map gate_of gates.now) (operand_of root) }
    ensures { IfOk result
        (λ l. HasLeastFirable order trees.now (map gate_of gates.now) (operand_of root) l) }
{
    let marks = cone(alloc, gates, root)?;
    let places = places(alloc, trees)?;
    let mut ops = Ops::new(alloc, most);
    let mut memo = Memo::new(alloc);
    let mut table = Vec::new(alloc);
    for (number, gate) in gates.iter().enumerate() {
        let made = marked_family(
            &mut ops,
            &mut memo,
            trees,
            &places,
            &table,
            gate,
            marks[number],
            order,
        )?;
        table.push(made)?;
    }
    let whole = operand_family(&mut ops, &mut memo, trees, &places, &table, root, order)?;
    let pairs = exclusive_pairs(&mut ops, trees)?;
    let root = ops.without(whole, pairs)?;
    Ok(Listed {
        store: ops.into_store(),
        root,
    })
}

// The family of a gate that is marked, else the empty family.
fn marked_family(
    ops: &mut Ops,
    memo: &mut Memo,
    trees: &[NumberedTree],
    places: &EdgePlaces,
    table: &[NodeId],
    gate: &Gate,
    marked: bool,
    order: Option<u32>,
) -> Result<NodeId, NodeFault>
    requires numbered { AreNumbered trees.now }
    requires apart { AreApart trees.now }
    requires different { HaveDifferentEvents trees.now }
    requires placed { ArePlaced trees.now (length trees.now) places.now }
    requires held { AreLeastHeld memo.old ops.old.families }
    requires table { AreTabledOperands table.now ops.old }
    requires below { AreBelow (length table.now) (map operand_of gate.now.operands.items) }
    requires plain { marked ≡ true → ArePlain (map operand_of gate.now.operands.items) }
    ensures kept { KeepsHeld ops.old memo.new ops.new }
    ensures operand { IfOk result (λ n. IsOperand ops.new n.n) }
    ensures family { IfOk result (λ n. marked ≡ true → (gates : List GateOf)
        → EachTabled order trees.now gates table.now ops.old (map operand_of gate.now.operands.items)
        → IsFamilyOfJoint order trees.now gates (all_needed gate.now.joint)
        (map operand_of gate.now.operands.items) ops.new n.n) }
{
    if !marked {
        return Ok(NodeId::new(0));
    }
    gate_family(ops, memo, trees, places, table, gate, order)
}
