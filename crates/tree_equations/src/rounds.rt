//! Rounds of blocks of flows.

ghost use Rattle.std.specs.Prelude.{◌≡◌, ◌≤◌, ◌<◌, ℕ, OnOk, List, length};
ghost use Rattle.ar_base.specs.Lists.{IsOneOf};
ghost use Rattle.domains.specs.Domains.{IsDomain, values_of};
ghost use Rattle.eq_build.specs.BuildsInside.{most_gates};
ghost use Rattle.eq_build.specs.Views.{gates_in, row_at};
ghost use Rattle.gts_core.specs.Sound.{IsSound};
ghost use Rattle.gts_core.specs.View.{net_of, assign_of};
ghost use Rattle.gts_core.specs.declared.system.Assign.{Assign as FlatAssign};
ghost use Rattle.eq_build.specs.Steps.{Threads, Gives_target, RoundOf, Rounds, All_rounds};
ghost use Rattle.tree_equations.specs.Answers.{Gives, GivesEach, RoundsLeadTo, row_in, rows_in, itself};
ghost use Rattle.tree_equations.specs.Blocks.{blocks_in};
ghost use Rattle.tree_equations.specs.Index.{IsIndex, AreNumbersOf, AreUnder};

use crate::assigning::{given, together};
use crate::index::Index;
use crate::rows::{are_rows, put_rows};
use domains::Domain;
use eq_build::{BuildFault, Entry, needs_round};
use eq_core::Gate;
use gts_core::{Assign, GtsParts};
use std::alloc::Global;

// The blocks in order, each with as many rounds as it has flows: the rows are then what the flows are known to be.
pub(crate) fn all_rounds(
    alloc: Global,
    gates: &mut Vec<Gate>,
    parts: &GtsParts,
    index: &Index,
    rows: &mut Vec<Vec<Entry>>,
    blocks: &[Vec<u32>],
) -> Result<(), BuildFault>
    requires few { length gates.old.items ≤ most_gates }
    requires sound { IsSound parts.now }
    requires index { IsIndex parts.now index.now }
    requires long { length rows.old.items ≡ length parts.now.variables.items }
    requires under { (block : List ℕ) → IsOneOf (blocks_in blocks.now) block
        → AreUnder (length parts.now.variables.items) block }
    ensures rounds { RoundsLeadTo (λ last h. All_rounds (net_of parts.now) (blocks_in blocks.now)
        (gates_in gates.old.items) (row_at rows.old.items) last h) result rows.new.items
        gates.new.items }
    ensures long { OnOk result (length rows.new.items ≡ length rows.old.items) }
{
    for block in blocks {
        rounds(alloc, gates, parts, index, rows, block)?;
    }
    Ok(())
}

// As many rounds of a block as it has flows. A round that makes no gate and changes no row is followed by others like
// it, which are not made.
fn rounds(
    alloc: Global,
    gates: &mut Vec<Gate>,
    parts: &GtsParts,
    index: &Index,
    rows: &mut Vec<Vec<Entry>>,
    block: &[u32],
) -> Result<(), BuildFault>
    requires few { length gates.old.items ≤ most_gates }
    requires sound { IsSound parts.now }
    requires index { IsIndex parts.now index.now }
    requires long { length rows.old.items ≡ length parts.now.variables.items }
    requires under { AreUnder (length parts.now.variables.items) block.now }
    ensures rounds { RoundsLeadTo (λ last h. Rounds (net_of parts.now) block.now (length block.now)
        (gates_in gates.old.items) (row_at rows.old.items) last h) result rows.new.items
        gates.new.items }
    ensures long { OnOk result (length rows.new.items ≡ length rows.old.items) }
{
    let mut made = 0;
    let mut still = false;
    while needs_round(block, made, still) {
        let before = gates.len();
        let new = round(alloc, gates, parts, index, rows, block)?;
        still = gates.len() == before && are_rows(rows, block, &new);
        put_rows(rows, block, new);
        made += 1;
    }
    Ok(())
}

// What the flows of a block are known to be in a round.
fn round(
    alloc: Global,
    gates: &mut Vec<Gate>,
    parts: &GtsParts,
    index: &Index,
    rows: &[Vec<Entry>],
    block: &[u32],
) -> Result<Vec<Vec<Entry>>, BuildFault>
    requires few { length gates.old.items ≤ most_gates }
    requires sound { IsSound parts.now }
    requires index { IsIndex parts.now index.now }
    requires under { AreUnder (length parts.now.variables.items) block.now }
    ensures { GivesEach rows_in itself (RoundOf (net_of parts.now) (row_at rows.now))
        (gates_in gates.old.items)
        block.now result gates.new.items }
{
    let mut new = Vec::new(alloc);
    for n in block {
        let row = flow_round(alloc, gates, parts, index, rows, *n)?;
        new.push(row)?;
    }
    Ok(new)
}

// What a flow is known to be in a round.
fn flow_round(
    alloc: Global,
    gates: &mut Vec<Gate>,
    parts: &GtsParts,
    index: &Index,
    rows: &[Vec<Entry>],
    n: u32,
) -> Result<Vec<Entry>, BuildFault>
    requires few { length gates.old.items ≤ most_gates }
    requires sound { IsSound parts.now }
    requires index { IsIndex parts.now index.now }
    requires under { n < length parts.now.variables.items }
    ensures { Gives row_in (λ es h. RoundOf (net_of parts.now) (row_at rows.now)
        (gates_in gates.old.items) n es h)
        result gates.new.items }
{
    let domain = &parts.variables[n as usize].domain;
    let numbers = &index.assigns[n as usize];
    let lists = each_given(alloc, gates, rows, domain, &parts.assigns, numbers)?;
    let groups = together(alloc, &lists)?;
    groups.entries(alloc, gates)
}

// What each of these assignments gives a flow with this domain.
fn each_given(
    alloc: Global,
    gates: &mut Vec<Gate>,
    rows: &[Vec<Entry>],
    domain: &Domain,
    assigns: &[Assign],
    numbers: &[u32],
) -> Result<Vec<Vec<Entry>>, BuildFault>
    requires few { length gates.old.items ≤ most_gates }
    requires domain { IsDomain domain.now }
    requires numbers { (picked : List FlatAssign) × AreNumbersOf assigns.now numbers.now picked }
    ensures { (picked : List FlatAssign) → AreNumbersOf assigns.now numbers.now picked
        → GivesEach rows_in assign_of (Gives_target (row_at rows.now) (values_of domain.now))
        (gates_in gates.old.items) picked result gates.new.items }
{
    let mut lists = Vec::new(alloc);
    for number in numbers {
        let list = given(alloc, gates, rows, domain, &assigns[*number as usize])?;
        lists.push(list)?;
    }
    Ok(lists)
}
