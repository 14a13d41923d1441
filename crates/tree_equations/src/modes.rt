//! The modes of trees.

ghost use Rattle.std.specs.Prelude.{◌≡◌, ◌≤◌, ◌++◌, OnOk, [], length};
ghost use Rattle.eq_core.specs.Gates.{all_of};
ghost use Rattle.eq_core.specs.Views.{operand_of};
ghost use Rattle.eq_build.specs.Entries.{with_entry};
ghost use Rattle.eq_build.specs.BuildsInside.{most_gates};
ghost use Rattle.eq_build.specs.Views.{entries_in, operands_in, gates_in, MakesEntries, MakesOperand};
ghost use Rattle.eq_build.specs.Steps.{not_left, modes_of, Has_modes};
ghost use Rattle.tree_equations.specs.Answers.{GivesEach, rows_in, tree_in, edges_in};

use ar_base::Memory;
use domains::Value;
use eq_build::{BuildFault, Entry, made};
use eq_core::{Gate, Joint, Operand};
use mode_trees::{Edge, ModeTree};
use std::alloc::Global;

// The entries of each tree's modes.
pub(crate) fn modes(
    alloc: Global,
    gates: &mut Vec<Gate>,
    trees: &[ModeTree],
) -> Result<Vec<Vec<Entry>>, BuildFault>
    requires { length gates.old.items ≤ most_gates }
    ensures { GivesEach rows_in tree_in Has_modes (gates_in gates.old.items) trees.now result
        gates.new.items }
{
    let mut rows = Vec::new(alloc);
    for tree in trees {
        let row = tree_modes(alloc, gates, tree)?;
        rows.push(row)?;
    }
    Ok(rows)
}

// The entries of a tree's modes: its first one, and those that its edges enter.
fn tree_modes(
    alloc: Global,
    gates: &mut Vec<Gate>,
    tree: &ModeTree,
) -> Result<Vec<Entry>, BuildFault>
    requires { length gates.old.items ≤ most_gates }
    ensures { MakesEntries (modes_of (tree_in tree.now) (gates_in gates.old.items)) result
        gates.new.items }
{
    let mut entries = Vec::new(alloc);
    let first = mode(alloc, gates, &[], tree.first, &tree.edges)?;
    push_entry(&mut entries, tree.first, first)?;
    for edge in &tree.edges {
        let enters = [Operand::Event(edge.event, true)];
        let operand = mode(alloc, gates, &enters, edge.to, &tree.edges)?;
        push_entry(&mut entries, edge.to, operand)?;
    }
    Ok(entries)
}

// A mode: what enters it has come, and none of the events that leave it.
fn mode(
    alloc: Global,
    gates: &mut Vec<Gate>,
    enters: &[Operand],
    mode: Value,
    edges: &[Edge],
) -> Result<Operand, BuildFault>
    requires { length gates.old.items ≤ most_gates }
    ensures { MakesOperand (all_of (gates_in gates.old.items) (operands_in enters.now
        ++ not_left mode (edges_in edges.now))) result gates.new.items }
{
    let mut operands = Vec::from_slice(alloc, enters)?;
    push_not_left(&mut operands, mode, edges)?;
    made(alloc, gates, Joint::And, &operands)
}

// The events that leave a mode have not come.
fn push_not_left(operands: &mut Vec<Operand>, mode: Value, edges: &[Edge]) -> Result<(), Memory>
    ensures { OnOk result (operands_in operands.new.items
        ≡ operands_in operands.old.items ++ not_left mode (edges_in edges.now)) }
{
    for edge in edges {
        if edge.from == mode {
            operands.push(Operand::Event(edge.event, false))?;
        }
    }
    Ok(())
}

// An entry more, if its operand may be true.
fn push_entry(entries: &mut Vec<Entry>, value: Value, operand: Operand) -> Result<(), Memory>
    ensures { OnOk result (entries_in entries.new.items
        ≡ entries_in entries.old.items ++ with_entry value (operand_of operand) []) }
{
    if operand != Operand::Never {
        entries.push(Entry { value, operand })?;
    }
    Ok(())
}
