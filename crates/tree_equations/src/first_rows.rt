//! What the variables read before the rounds.

ghost use Rattle.std.specs.Prelude.{◌≡◌, ◌≤◌, ℕ, IfOk, OnOk, [], length};
ghost use Rattle.ar_base.specs.Lists.{Stands};
ghost use Rattle.eq_build.specs.BuildsInside.{most_gates};
ghost use Rattle.eq_build.specs.Views.{entries_in, lists_in, row_at};
ghost use Rattle.gts_core.specs.View.{variables_from};
ghost use Rattle.eq_build.specs.Steps.{first_reading, in_order};
ghost use Rattle.tree_equations.specs.Answers.{Entries, trees_in};

use crate::assigning::put_all;
use ar_base::Memory;
use eq_build::{BuildFault, Entry, Groups};
use eq_core::Operand;
use gts_core::Variable;
use mode_trees::ModeTree;
use std::alloc::Global;

// The first row of each variable: the modes of its tree, or its init value; none for a flow.
pub(crate) fn first_rows(
    alloc: Global,
    variables: &[Variable],
    trees: &[ModeTree],
    modes: Vec<Vec<Entry>>,
) -> Result<Vec<Vec<Entry>>, Memory>
    requires long { length modes.items ≡ length trees.now }
    requires few { (n : ℕ) (row : Entries) → Stands modes.items n row
        → length row.items ≤ most_gates }
    ensures long { IfOk result (λ rows. length rows.items ≡ length variables.now) }
    ensures reading { IfOk result (λ rows. row_at rows.items
        ≡ first_reading (trees_in trees.now) (lists_in modes.items) 0
        (variables_from 0 variables.now)) }
{
    let mut rows = init_rows(alloc, variables)?;
    let mut modes = modes;
    while let Some(entries) = modes.pop() {
        let number = trees[modes.len()].variable.n as usize;
        if number < variables.len() && variables[number].is_state {
            let row = in_order(alloc, &entries)?;
            rows[number] = row;
        }
    }
    Ok(rows)
}

// The init value of each state variable, and nothing for a flow.
fn init_rows(alloc: Global, variables: &[Variable]) -> Result<Vec<Vec<Entry>>, Memory>
    ensures long { IfOk result (λ rows. length rows.items ≡ length variables.now) }
    ensures reading { IfOk result (λ rows. (x : ℕ) → row_at rows.items x
        ≡ first_reading [] [] 0 (variables_from 0 variables.now) x) }
{
    let mut rows = Vec::new(alloc);
    for variable in variables {
        let row = if variable.is_state {
            let entry = Entry {
                value: variable.value,
                operand: Operand::Always,
            };
            Vec::from_slice(alloc, &[entry])?
        } else {
            Vec::new(alloc)
        };
        rows.push(row)?;
    }
    Ok(rows)
}

// The entries in the order of their values. Each value makes one gate at most, so that there are never too many.
fn in_order(alloc: Global, entries: &[Entry]) -> Result<Vec<Entry>, Memory>
    requires { length entries.now ≤ most_gates }
    ensures { IfOk result (λ row. entries_in row.items ≡ in_order (entries_in entries.now)) }
{
    let mut groups = Groups::new(alloc);
    put_all(alloc, &mut groups, entries)?;
    let mut gates = Vec::new(alloc);
    match groups.entries(alloc, &mut gates) {
        Ok(row) => Ok(row),
        Err(BuildFault::Gates) => unreachable!(),
        Err(BuildFault::Memory) => Err(Memory {}),
    }
}
