//! The diagram of an operand, with those of the gates that it rests on.

ghost use Rattle.std.specs.Prelude.{◌≡◌, ◌⊎◌, ◌≤◌, IfOk, length, map};
ghost use Rattle.eq_core.specs.Ordered.{AreOrdered};
ghost use Rattle.eq_core.specs.ValuesInside.{IsBelow};
ghost use Rattle.eq_core.specs.Views.{gate_of, operand_of};
ghost use Rattle.mode_nodes.specs.Diagrams.{IsDiagramNumber};
ghost use Rattle.mode_nodes.specs.Bounds.{GrowsWithin};
ghost use Rattle.mode_diagrams.specs.Trees.{AreNumbered, AreApart};
ghost use Rattle.mode_diagrams.specs.Agreement.{HasOperandValues, AreClosedMarks};
ghost use Rattle.mode_diagrams.specs.Lacking.{IsFull, LacksSome};
ghost use Rattle.mode_diagrams.specs.Sets.{AreSmall};

use crate::events::places;
use crate::gates::{gate_diagram, operand_diagram};
use crate::undrawn::Undrawn;
use diagram_steps::NumberedTree;
use eq_core::{Gate, Operand};
use mode_nodes::{DiagramId, Diagrams};
use std::alloc::Global;

/// The diagram of an operand, right where the modes cost no more than is enough. Of the gates those with a mark are drawn, each once: the operand's own and those that a
/// marked gate's operands name have to be marked. Beyond comes where the store is full, or where no tree has an event that
/// the operand or a marked gate names, and there it comes always, if memory is not refused before.
pub fn draw(
    alloc: Global,
    store: &mut Diagrams,
    trees: &[NumberedTree],
    gates: &[Gate],
    marks: &[bool],
    root: Operand,
) -> Result<DiagramId, Undrawn>
    requires few { length trees.now ≤ 4294967295 }
    requires numbered { AreNumbered trees.now }
    requires apart { AreApart trees.now }
    requires small { AreSmall trees.now }
    requires ordered { AreOrdered (map gate_of gates.now) }
    requires root_in { IsBelow (length gates.now) (operand_of root) }
    requires closed { AreClosedMarks (map gate_of gates.now) (operand_of root) marks.now }
    ensures grows { GrowsWithin store.old store.new }
    ensures number { IfOk result (λ n. IsDiagramNumber store.new.store n.n) }
    ensures agrees { IfOk result (λ n. HasOperandValues trees.now (map gate_of gates.now) (operand_of root)
        store.new n.n) }
    ensures beyond { result ≡ Err Undrawn.Beyond → IsFull store.new.store
        ⊎ LacksSome trees.now (map gate_of gates.now) (operand_of root) marks.now }
    ensures known { IfOk result
        (λ _. LacksSome trees.now (map gate_of gates.now) (operand_of root) marks.now → ⊥) }
{
    let places = places(alloc, trees)?;
    let mut table = Vec::new(alloc);
    for (number, gate) in gates.iter().enumerate() {
        let drawn = gate_diagram(alloc, store, trees, &places, &table, gate, marks[number])?;
        table.push(drawn)?;
    }
    operand_diagram(alloc, store, trees, &places, &table, root)
}
