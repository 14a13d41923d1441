//! The total values of flows.

ghost use Rattle.std.specs.Prelude.{◌≡◌, ◌≤◌, ◌<◌, IfOk, List, length};
ghost use Rattle.eq_build.specs.BuildsInside.{most_gates};
ghost use Rattle.eq_build.specs.Views.{entries_in, operands_in, gates_in, row_at, MakesEntries};
ghost use Rattle.ar_meaning.specs.Systems.{Variable as SystemVariable};
ghost use Rattle.eq_build.specs.Steps.{Threads, Totals_of, total_of, opposites, flows_from};
ghost use Rattle.gts_core.specs.View.{variables_from};
ghost use Rattle.tree_equations.specs.Answers.{Gives, rows_in};
ghost use Rattle.tree_equations.specs.Index.{AreFlows};

use crate::assigning::put_all;
use ar_base::Memory;
use domains::Value;
use eq_build::{BuildFault, Entry, Groups, made};
use eq_core::{Gate, Joint, Operand};
use gts_core::Variable;
use std::alloc::Global;

// The total entries of each flow.
pub(crate) fn totals(
    alloc: Global,
    gates: &mut Vec<Gate>,
    rows: &[Vec<Entry>],
    variables: &[Variable],
    flows: &[u32],
) -> Result<Vec<Vec<Entry>>, BuildFault>
    requires few { length gates.old.items ≤ most_gates }
    requires long { length rows.now ≡ length variables.now }
    requires flows { AreFlows variables.now flows.now
        (flows_from 0 (variables_from 0 variables.now)) }
    ensures { Gives rows_in (λ ess h.
        Threads (Totals_of (row_at rows.now)) (gates_in gates.old.items)
        (flows_from 0 (variables_from 0 variables.now)) ess h) result gates.new.items }
{
    let mut totals = Vec::new(alloc);
    for n in flows {
        let number = *n as usize;
        let row = total(alloc, gates, &rows[number], variables[number].value)?;
        totals.push(row)?;
    }
    Ok(totals)
}

// The total entries of a flow: its reset value also where nothing is known.
fn total(
    alloc: Global,
    gates: &mut Vec<Gate>,
    row: &[Entry],
    reset: Value,
) -> Result<Vec<Entry>, BuildFault>
    requires { length gates.old.items ≤ most_gates }
    ensures { MakesEntries (total_of (gates_in gates.old.items) (entries_in row.now) reset) result
        gates.new.items }
{
    let unknown = opposites(alloc, row)?;
    let none = made(alloc, gates, Joint::And, &unknown)?;
    let mut groups = Groups::new(alloc);
    put_all(alloc, &mut groups, row)?;
    groups.put(alloc, reset, &[none])?;
    groups.entries(alloc, gates)
}

// None of the entries' operands is true.
fn opposites(alloc: Global, row: &[Entry]) -> Result<Vec<Operand>, Memory>
    ensures { IfOk result (λ os. operands_in os.items ≡ opposites (entries_in row.now)) }
{
    let mut operands = Vec::new(alloc);
    for entry in row {
        let opposite = match entry.operand {
            Operand::Always => Operand::Never,
            Operand::Never => Operand::Always,
            Operand::Event(event, sign) => Operand::Event(event, !sign),
            Operand::Gate(gate, sign) => Operand::Gate(gate, !sign),
        };
        operands.push(opposite)?;
    }
    Ok(operands)
}
