//! The diagrams of operands and gates.

ghost use Rattle.std.specs.Prelude.{◌≡◌, ◌⊎◌, ◌<◌, List, IfOk, length, map, true};
ghost use Rattle.eq_core.specs.Gates.{Gate as GateOf};
ghost use Rattle.eq_core.specs.Ordered.{AreBelow};
ghost use Rattle.eq_core.specs.ValuesInside.{IsBelow};
ghost use Rattle.eq_core.specs.Views.{all_needed, gate_of, operand_of};
ghost use Rattle.mode_nodes.specs.Diagrams.{IsDiagramNumber};
ghost use Rattle.mode_nodes.specs.Bounds.{GrowsWithin};
ghost use Rattle.diagram_steps.specs.Joints.{AreTabled};
ghost use Rattle.mode_diagrams.specs.Trees.{AreNumbered, AreApart};
ghost use Rattle.mode_diagrams.specs.Agreement.{HasOperandValues, AgreesJoint, IsOperandReady, AreReady};
ghost use Rattle.mode_diagrams.specs.Lacking.{HavePlacedEvents, IsFull, Lacks, LacksOne};
ghost use Rattle.mode_diagrams.specs.Sets.{AreSmall};

use crate::events::{TreePlaces, event_diagram};
use crate::undrawn::Undrawn;
use diagram_steps::{NumberedTree, joined, signed};
use eq_core::{Gate, Joint, Operand};
use mode_nodes::{DiagramId, Diagrams};
use std::alloc::Global;

/// The diagram of an operand, where the table has the diagrams of the gates that it may name.
pub(crate) fn operand_diagram(
    alloc: Global,
    store: &mut Diagrams,
    trees: &[NumberedTree],
    places: &TreePlaces,
    table: &[DiagramId],
    operand: Operand,
) -> Result<DiagramId, Undrawn>
    requires numbered { AreNumbered trees.now }
    requires apart { AreApart trees.now }
    requires small { AreSmall trees.now }
    requires placed { HavePlacedEvents trees.now (length trees.now) places.now }
    requires table { AreTabled table.now store.old.store }
    requires below { IsBelow (length table.now) (operand_of operand) }
    ensures grows { GrowsWithin store.old store.new }
    ensures number { IfOk result (λ n. IsDiagramNumber store.new.store n.n) }
    ensures agrees { IfOk result (λ n. (gates : List GateOf)
        → IsOperandReady trees.now gates table.now store.old (operand_of operand)
        → HasOperandValues trees.now gates (operand_of operand) store.new n.n) }
    ensures beyond { result ≡ Err Undrawn.Beyond
        → IsFull store.new.store ⊎ Lacks trees.now (operand_of operand) }
    ensures known { IfOk result (λ _. Lacks trees.now (operand_of operand) → ⊥) }
{
    match operand {
        Operand::Always => Ok(DiagramId::new(1)),
        Operand::Never => Ok(DiagramId::new(0)),
        Operand::Event(event, sign) => {
            let plain = event_diagram(alloc, store, trees, places, event)?;
            Ok(signed(store, plain, sign)?)
        }
        Operand::Gate(gate, sign) => {
            let plain = table[gate.n as usize];
            Ok(signed(store, plain, sign)?)
        }
    }
}

/// The diagram of a gate that is marked, else false.
pub(crate) fn gate_diagram(
    alloc: Global,
    store: &mut Diagrams,
    trees: &[NumberedTree],
    places: &TreePlaces,
    table: &[DiagramId],
    gate: &Gate,
    marked: bool,
) -> Result<DiagramId, Undrawn>
    requires numbered { AreNumbered trees.now }
    requires apart { AreApart trees.now }
    requires small { AreSmall trees.now }
    requires placed { HavePlacedEvents trees.now (length trees.now) places.now }
    requires table { AreTabled table.now store.old.store }
    requires below { AreBelow (length table.now) (map operand_of gate.now.operands.items) }
    ensures grows { GrowsWithin store.old store.new }
    ensures number { IfOk result (λ n. IsDiagramNumber store.new.store n.n) }
    ensures agrees { IfOk result (λ n. marked ≡ true → (gates : List GateOf)
        → AreReady trees.now gates table.now store.old (map operand_of gate.now.operands.items)
        → AgreesJoint trees.now gates (all_needed gate.now.joint)
        (map operand_of gate.now.operands.items) store.new n.n) }
    ensures beyond { result ≡ Err Undrawn.Beyond → (marked ≡ true)
        × (IsFull store.new.store ⊎ LacksOne trees.now (map operand_of gate.now.operands.items)) }
    ensures known { IfOk result (λ _. marked ≡ true
        → LacksOne trees.now (map operand_of gate.now.operands.items) → ⊥) }
{
    if !marked {
        return Ok(DiagramId::new(0));
    }
    let mut parts = Vec::new(alloc);
    for operand in &gate.operands {
        let part = operand_diagram(alloc, store, trees, places, table, *operand)?;
        parts.push(part)?;
    }
    Ok(joined(store, gate.joint == Joint::And, &parts)?)
}
