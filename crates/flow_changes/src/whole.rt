//! What the new state determines, found anew.

ghost use Rattle.std.specs.Prelude.{◌≡◌, ◌<◌, IfOk, IfErr, OnErr};
ghost use Rattle.flow_propagate.specs.Determined.{IsDetermined};
ghost use Rattle.flow_propagate.specs.NewValues.{AreNewValues, written};
ghost use Rattle.flow_propagate.specs.Plan.{IsPlan};
ghost use Rattle.flow_changes.specs.Known.{changing_numbers};
ghost use Rattle.flow_changes.specs.Picking.{AreWithin};
ghost use Rattle.flow_changes.specs.Present.{IsFaultOf, Propagates};

use crate::starting::write_new;
use crate::{Changes, changes_at};
use ar_base::{Memory, VarId, numbers_below};
use domains::Value;
use flow_propagate::{Determined, Plan, PropagateFault, determine};
use gts_core::{Gts, Valuation};
use std::alloc::Global;

// Finds what the new state determines, and tells what changed. After a refusal all is as it was.
pub(crate) fn whole(
    alloc: Global,
    gts: &Gts,
    plan: &Plan,
    determined: &mut Determined,
    new: &[(VarId, Value)],
) -> Result<Changes, PropagateFault>
    requires plan { IsPlan gts.now plan.now }
    requires new { AreNewValues gts.now new.now }
    requires determined { IsDetermined gts.now determined.old.values.values.items
        determined.old.known.items }
    ensures ok { IfOk result (Propagates gts.now determined.old.values.values.items
        determined.old.known.items new.now determined.new.values.values.items
        determined.new.known.items) }
    ensures fault { IfErr result (IsFaultOf gts.now
        (written determined.old.values.values.items new.now)) }
    ensures err { OnErr result ((determined.new.values.values.items
        ≡ determined.old.values.values.items)
        × (determined.new.known.items ≡ determined.old.known.items)) }
{
    let parts = gts.parts();
    let state = renewed(alloc, &determined.values.values, new)?;
    let after = determine(alloc, gts, plan, &state)?;
    let numbers = numbers_below(alloc, parts.variables.len())?;
    let changes = changes_at(
        alloc,
        parts,
        &numbers,
        &determined.values.values,
        &determined.known,
        &after.values.values,
        &after.known,
    )?;
    *determined = after;
    Ok(changes)
}

// The values with the new ones among them.
fn renewed(alloc: Global, values: &[Value], new: &[(VarId, Value)]) -> Result<Valuation, Memory>
    requires { AreWithin (changing_numbers new.now) values.now }
    ensures { IfOk result (λ state. state.values.items ≡ written values.now new.now) }
{
    let mut values = Vec::from_slice(alloc, values)?;
    write_new(new, &mut values);
    Ok(Valuation { values })
}
