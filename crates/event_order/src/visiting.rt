//! The trees in the order in which an operand's gates use them first.

ghost use Rattle.std.specs.Prelude.{◌≡◌, ◌≤◌, ◌∷◌, ◌++◌, [], OnOk, IfOk, length, map};
ghost use Rattle.std.specs.List.Sorted.{IsPermutation};
ghost use Rattle.eq_core.specs.Ordered.{AreOrdered};
ghost use Rattle.eq_core.specs.ValuesInside.{IsBelow};
ghost use Rattle.eq_core.specs.Views.{gate_of, operand_of};
ghost use Rattle.mode_diagrams.specs.Trees.{AreApart};
ghost use Rattle.mode_diagrams.specs.Costs.{HaveDifferentEvents};
ghost use Rattle.mode_diagrams.specs.Lacking.{HavePlacedEvents};
ghost use Rattle.event_order.specs.Ordered.{HasAllNames, HasNoOtherNames};
ghost use Rattle.event_order.specs.Taking.{AreTaken, names_in};
ghost use Rattle.event_order.specs.Visiting.{Pushes, Looks};

use crate::numbering::Numbering;
use crate::places::{TreePlaces, places};
use ar_base::Memory;
use diagram_steps::NumberedTree;
use eq_core::{Gate, Operand};
use std::alloc::Global;

/// How the operands of a gate are visited.
#[derive(Clone, Copy, PartialEq, Eq)]
pub enum Visit {
    /// From the first to the last.
    AsWritten,
    /// Events first, then gates, each before those that rest on longer chains of gates.
    ShallowFirst,
}

/// The trees with events on which the operand rests, and no others, in the order in which these events are met from the operand on, gate by
/// gate, over new numbers of their events. The error is want of memory.
pub(crate) fn first_uses(
    alloc: Global,
    trees: &[NumberedTree],
    gates: &[Gate],
    root: Operand,
    visit: Visit,
) -> Result<Numbering, Memory>
    requires few { length trees.now ≤ 4294967295 }
    requires apart { AreApart trees.now }
    requires different { HaveDifferentEvents trees.now }
    requires ordered { AreOrdered (map gate_of gates.now) }
    requires root_in { IsBelow (length gates.now) (operand_of root) }
    ensures taken { IfOk result (λ n. AreTaken trees.now n) }
    ensures names { IfOk result (λ n. HasAllNames (names_in n) trees.now
        (map gate_of gates.now) (operand_of root)) }
    ensures no_others { IfOk result (λ n. HasNoOtherNames (names_in n) trees.now
        (map gate_of gates.now) (operand_of root)) }
{
    let places = places(alloc, trees)?;
    let depths = gate_depths(alloc, gates)?;
    let mut walk = Walk {
        stack: Vec::new(alloc),
        seen: vec![in alloc; false; gates.len()]?,
        numbering: Numbering::new(alloc),
    };
    walk.stack.push(root)?;
    while let Some(operand) = walk.stack.pop() {
        look(
            alloc, &mut walk, trees, &places, gates, operand, visit, &depths,
        )?;
    }
    Ok(walk.numbering)
}

// How many gates the longest chain of gates has that begins at the operand.
fn depth_of(depths: &[u32], operand: Operand) -> u32 {
    match operand {
        Operand::Gate(gate, _) => depths.get(gate.n as usize).copied().unwrap_or(0),
        _ => 0,
    }
}

// For each gate how many gates the longest chain has that begins at it.
fn gate_depths(alloc: Global, gates: &[Gate]) -> Result<Vec<u32>, Memory> {
    let mut depths: Vec<u32> = Vec::new(alloc);
    for gate in gates {
        let mut depth = 0;
        for operand in &gate.operands {
            depth = depth.max(depth_of(&depths, *operand));
        }
        depths.push(depth.saturating_add(1))?;
    }
    Ok(depths)
}

// The operands in the order in which they are taken from a stack's end: the last is visited first.
fn in_turn(
    alloc: Global,
    operands: &[Operand],
    visit: Visit,
    depths: &[u32],
) -> Result<Vec<Operand>, Memory>
    ensures { IfOk result (λ sorted. IsPermutation operands.now sorted.items) }
{
    let mut sorted = Vec::from_slice(alloc, operands)?;
    if visit == Visit::AsWritten {
        return Ok(sorted);
    }
    sorted.sort_by_key(|operand| depth_of(depths, *operand))?;
    Ok(sorted)
}

// Puts operands on the stack, from the last to the first.
fn push_all(stack: &mut Vec<Operand>, mut operands: Vec<Operand>) -> Result<(), Memory>
    ensures { OnOk result (Pushes operands.items stack.old.items stack.new.items) }
{
    while let Some(last) = operands.pop() {
        stack.push(last)?;
    }
    Ok(())
}

/// What is left to visit, which gates were seen, and the trees that were met.
#[derive(Drop)]
pub(crate) struct Walk {
    /// The operands that are left, the next one last.
    pub(crate) stack: Vec<Operand>,
    /// For each gate whether it was seen.
    pub(crate) seen: Vec<bool>,
    /// The trees that were met, over new numbers.
    pub(crate) numbering: Numbering,
}

// Visits an operand that was taken from the stack: an event's tree is met, and the operands of a gate that is seen for the
// first time are put on the stack.
fn look(
    alloc: Global,
    walk: &mut Walk,
    trees: &[NumberedTree],
    places: &TreePlaces,
    gates: &[Gate],
    operand: Operand,
    visit: Visit,
    depths: &[u32],
) -> Result<(), Memory>
    requires apart { AreApart trees.now }
    requires different { HaveDifferentEvents trees.now }
    requires placed { HavePlacedEvents trees.now (length trees.now) places.now }
    requires taken { AreTaken trees.now walk.old.numbering }
    requires seen { length walk.old.seen.items ≡ length gates.now }
    requires below { IsBelow (length gates.now) (operand_of operand) }
    ensures { OnOk result (Looks trees.now (map gate_of gates.now) (operand_of operand) walk.old walk.new) }
{
    match operand {
        Operand::Always => Ok(()),
        Operand::Never => Ok(()),
        Operand::Event(event, _) => walk.numbering.meet(alloc, trees, places, event),
        Operand::Gate(gate, _) => {
            let number = gate.n as usize;
            if walk.seen[number] {
                return Ok(());
            }
            walk.seen[number] = true;
            let operands = in_turn(alloc, &gates[number].operands, visit, depths)?;
            push_all(&mut walk.stack, operands)
        }
    }
}
