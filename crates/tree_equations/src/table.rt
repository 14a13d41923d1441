//! The table.

ghost use Rattle.std.specs.Prelude.{◌≡◌, ◌≤◌, ◌<◌, ℕ, IfOk, IfErr, length, slice_get};
ghost use Rattle.ar_base.specs.Lists.{IsOneOf};
ghost use Rattle.eq_core.specs.Gates.{Table};
ghost use Rattle.eq_core.specs.Views.{table_of};
ghost use Rattle.eq_build.specs.BuildsInside.{most_gates};
ghost use Rattle.eq_build.specs.Views.{gates_in, row_at, StopsBuilding};
ghost use Rattle.gts_core.specs.Sound.{IsSound};
ghost use Rattle.gts_core.specs.View.{net_of};
ghost use Rattle.mode_trees.specs.declared.forests.ModeTree.{ModeTree as Tree};
ghost use Rattle.tree_equations.specs.Seen.{GivesConflict};
ghost use Rattle.tree_equations.specs.Index.{IsIndex};
ghost use Rattle.tree_equations.specs.Gives.{AtObserver, IsTableOfParts, NeedsTooMany};

use crate::assigning::built;
use crate::fault::EqFault;
use crate::first_rows::first_rows;
use crate::index::{Index, make_index, numbered_blocks};
use crate::leaving::leaving;
use crate::modes::modes;
use crate::rounds::all_rounds;
use crate::rows::put_rows;
use crate::seeing::{broken, outs, twos};
use crate::totals::totals;
use domains::Value;
use eq_build::{BuildFault, Entry, made, operand_for};
use eq_core::{Equations, Gate, Joint, Operand};
use flow_propagate::make_plan;
use gts_core::{Gts, GtsParts};
use mode_trees::Forest;
use std::alloc::Global;

/// The table of gates of a static system, by the trees of its modes, for the observer of this number and a wanted value.
///
/// The trees are those of a system, so that none has as many edges as a table may have gates. Gates comes only where the
/// table has more gates than a table may have; the other error is want of memory.
pub fn equations(
    alloc: Global,
    gts: &Gts,
    forest: &Forest,
    observer: u32,
    wanted: Value,
) -> Result<Equations, EqFault>
    requires observer { observer < length gts.now.observers.items }
    requires few { (tree : Tree) → IsOneOf forest.now.trees.items tree
        → length tree.edges.items < most_gates }
    ensures table { IfOk result (λ q. AtObserver (slice_get gts.now.observers.items observer)
        (IsTableOfParts gts.now forest.now wanted (table_of q))) }
    ensures few { IfOk result (λ q. length q.gates.items ≤ most_gates) }
    ensures gates { result ≡ Err EqFault.Gates
        → AtObserver (slice_get gts.now.observers.items observer)
        (NeedsTooMany gts.now forest.now wanted) }
{
    Ok(table(alloc, gts, forest, observer, wanted)?)
}

// The same with the faults of building.
fn table(
    alloc: Global,
    gts: &Gts,
    forest: &Forest,
    observer: u32,
    wanted: Value,
) -> Result<Equations, BuildFault>
    requires observer { observer < length gts.now.observers.items }
    requires few { (tree : Tree) → IsOneOf forest.now.trees.items tree
        → length tree.edges.items < most_gates }
    ensures table { IfOk result (λ q. AtObserver (slice_get gts.now.observers.items observer)
        (IsTableOfParts gts.now forest.now wanted (table_of q))) }
    ensures few { IfOk result (λ q. length q.gates.items ≤ most_gates) }
    ensures gates { IfErr result (λ fault.
        StopsBuilding fault (AtObserver (slice_get gts.now.observers.items observer)
        (NeedsTooMany gts.now forest.now wanted))) }
{
    let parts = gts.parts();
    let index = make_index(alloc, parts)?;
    let plan = make_plan(alloc, gts)?;
    let blocks = numbered_blocks(alloc, &index.flows, &plan.blocks)?;
    let mut gates = Vec::new(alloc);
    let modes = modes(alloc, &mut gates, &forest.trees)?;
    let mut rows = first_rows(alloc, &parts.variables, &forest.trees, modes)?;
    all_rounds(alloc, &mut gates, parts, &index, &mut rows, &blocks)?;
    let conflict = conflicts(alloc, &mut gates, parts, &index, &mut rows)?;
    let seen = built(
        alloc,
        &mut gates,
        &rows,
        &parts.observers[observer as usize].value,
    )?;
    let top = operand_for(&seen, wanted);
    Ok(Equations {
        gates,
        conflict,
        top,
    })
}

// From known rows to total ones, with the operand of conflicts.
fn conflicts(
    alloc: Global,
    gates: &mut Vec<Gate>,
    parts: &GtsParts,
    index: &Index,
    rows: &mut Vec<Vec<Entry>>,
) -> Result<Operand, BuildFault>
    requires few { length gates.old.items ≤ most_gates }
    requires sound { IsSound parts.now }
    requires index { IsIndex parts.now index.now }
    requires long { length rows.old.items ≡ length parts.now.variables.items }
    ensures { GivesConflict (net_of parts.now) (row_at rows.old.items) (gates_in gates.old.items)
        result
        rows.new.items gates.new.items }
{
    let seen_twice = twos(alloc, gates, rows, &index.flows)?;
    let leaving = leaving(alloc, parts, index)?;
    let seen_outside = outs(alloc, gates, rows, parts, &leaving)?;
    let new = totals(alloc, gates, rows, &parts.variables, &index.flows)?;
    put_rows(rows, &index.flows, new);
    let seen_broken = broken(alloc, gates, rows, &parts.assigns)?;
    let mut operands = seen_twice;
    operands.extend_from_slice(&seen_outside)?;
    operands.extend_from_slice(&seen_broken)?;
    made(alloc, gates, Joint::Or, &operands)
}
