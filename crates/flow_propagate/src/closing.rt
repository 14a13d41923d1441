//! The facts that follow from a state.

ghost use Rattle.std.specs.Prelude.{◌≡◌, ◌<◌, ℕ, None, length, map, IfOk};
ghost use Rattle.gts_core.specs.View.{net_of, assign_of};
ghost use Rattle.gts_core.specs.Sound.{IsSound};
ghost use Rattle.gts_core.specs.declared.system.Assign.{Assign};
ghost use Rattle.ar_base.specs.Lists.{Stands};
ghost use Rattle.flow_propagate.specs.Plan.{AreReaders, IsSchedule, plain_pair};
ghost use Rattle.flow_propagate.specs.Table.{AreFacts, Moves, IsClosed};
ghost use Rattle.flow_propagate.specs.Searches.{IsLeastTarget, LeavesTargetDomain};
ghost use Rattle.flow_propagate.specs.Closing.{IsWorklist, IsWorkSettled, LooksAt, IsHeard, Hears};

use crate::fact_rows::first_rows;
use crate::facts::apply;
use crate::pairs::Runs;
use crate::plan::Plan;
use crate::searches::with_target;
use crate::table::Table;
use crate::worklist::{Worklist, add_readers, all_waiting, take};
use ar_base::Memory;
use domains::Value;
use gts_core::GtsParts;
use std::alloc::Global;
use typed_expr::Budget;

// The facts of a state, and the least flow for which a reached assignment yields a value outside its domain.
#[derive(Drop)]
pub(crate) struct Gathered {
    pub(crate) table: Table,
    pub(crate) outside: Option<u32>,
}

// The facts of a state.
pub(crate) fn known(
    alloc: Global,
    parts: &GtsParts,
    plan: &Plan,
    values: &[Value],
) -> Result<Gathered, Memory>
    requires sound { IsSound parts.now }
    requires readers { AreReaders parts.now (map plain_pair plan.now.readers.pairs.items) }
    requires schedule { IsSchedule parts.now plan.now.order.items plan.now.places.items }
    requires long { length values.now ≡ length parts.now.variables.items }
    ensures facts { IfOk result (λ known.
        AreFacts (net_of parts.now) values.now known.table.rows.items) }
    ensures long { IfOk result (λ known.
        length known.table.rows.items ≡ length parts.now.variables.items) }
    ensures outside { IfOk result (λ known.
        IsLeastTarget parts.now.assigns.items (length parts.now.assigns.items)
        (LeavesTargetDomain parts.now known.table.rows.items) known.outside) }
{
    let rows = first_rows(alloc, &parts.variables, values)?;
    let work = all_waiting(alloc, &plan.order, &plan.places);
    let known = close(alloc, parts, &plan.readers, work, Table { rows })?;
    Ok(known)
}

// Adds what an assignment yields, and notes its target where it yields a value outside the domain; where its target got more
// values, the assignments that read the target are to be looked at again.
fn look_at(
    alloc: Global,
    parts: &GtsParts,
    readers: &Runs,
    n: u32,
    table: &mut Table,
    budget: &mut Budget,
    outside: &mut Option<u32>,
    work: &mut Worklist<'_>,
) -> Result<(), Memory>
    requires sound { IsSound parts.now }
    requires readers { AreReaders parts.now (map plain_pair readers.now.pairs.items) }
    requires long { length table.old.rows.items ≡ length parts.now.variables.items }
    requires work { IsWorklist (length parts.now.assigns.items) work.old }
    requires below { n < length parts.now.assigns.items }
    ensures looks { IfOk result (λ _.
        LooksAt parts.now (length readers.now.pairs.items) n table.old.rows.items work.old
        table.new.rows.items work.new) }
    ensures hears { IfOk result (λ _.
        Hears parts.now n table.old.rows.items outside.old work.old table.new.rows.items outside.new
        work.new) }
{
    let assign = &parts.assigns[n as usize];
    let look = apply(alloc, parts, assign, table, budget)?;
    *outside = with_target(*outside, look.outside, assign.target.n);
    if !look.changed {
        return Ok(());
    }
    add_readers(readers, assign.target.n, work)
}

// Looks at the assignments that wait until none does.
fn close(
    alloc: Global,
    parts: &GtsParts,
    readers: &Runs,
    work: Worklist<'_>,
    table: Table,
) -> Result<Gathered, Memory>
    requires sound { IsSound parts.now }
    requires readers { AreReaders parts.now (map plain_pair readers.now.pairs.items) }
    requires long { length table.rows.items ≡ length parts.now.variables.items }
    requires work { IsWorklist (length parts.now.assigns.items) work }
    requires settled { IsWorkSettled parts.now table.rows.items work }
    requires heard { IsHeard parts.now table.rows.items None work }
    ensures moves { IfOk result (λ closed.
        Moves (net_of parts.now) table.rows.items closed.table.rows.items) }
    ensures closed { IfOk result (λ closed. (n : ℕ) (a : Assign)
        → Stands parts.now.assigns.items n a
        → IsClosed (net_of parts.now) closed.table.rows.items (assign_of a)) }
    ensures outside { IfOk result (λ closed.
        IsLeastTarget parts.now.assigns.items (length parts.now.assigns.items)
        (LeavesTargetDomain parts.now closed.table.rows.items) closed.outside) }
{
    let mut table = table;
    let mut work = work;
    let mut budget = Budget::for_facts();
    let mut outside = None;
    while let Some(n) = take(&mut work) {
        look_at(
            alloc,
            parts,
            readers,
            n,
            &mut table,
            &mut budget,
            &mut outside,
            &mut work,
        )?;
    }
    Ok(Gathered { table, outside })
}
