//! The quick way from what was determined to what the new state determines.

ghost use Rattle.std.specs.Prelude.{◌≡◌, true, IfOk};
ghost use Rattle.gts_core.specs.Sound.{IsSound};
ghost use Rattle.flow_propagate.specs.Determined.{IsDetermined, IsDeterminedBy};
ghost use Rattle.flow_propagate.specs.NewValues.{AreNewValues, written};
ghost use Rattle.flow_propagate.specs.Plan.{IsPlan};
ghost use Rattle.flow_changes.specs.Cone.{IsCone};
ghost use Rattle.flow_changes.specs.Picking.{KeepsOthers};

use crate::checking::all_hold;
use crate::closing::close;
use crate::picking::set_all;
use crate::starting::{mark_new, reset, write_new};
use ar_base::{Memory, VarId};
use domains::Value;
use flow_propagate::Plan;
use gts_core::GtsParts;
use std::alloc::Global;

// Writes the new values, and finds what follows for the members. False where the state has a fault, or may have one.
pub(crate) fn follow(
    alloc: Global,
    parts: &GtsParts,
    plan: &Plan,
    members: &[u32],
    new: &[(VarId, Value)],
    values: &mut Vec<Value>,
    known: &mut Vec<bool>,
) -> Result<bool, Memory>
    requires sound { IsSound parts.now }
    requires plan { IsPlan parts.now plan.now }
    requires new { AreNewValues parts.now new.now }
    requires cone { IsCone parts.now new.now members.now }
    requires determined { IsDetermined parts.now values.old.items known.old.items }
    ensures values { KeepsOthers members.now values.old.items values.new.items }
    ensures marks { KeepsOthers members.now known.old.items known.new.items }
    ensures follows { IfOk result (λ done. done ≡ true
        → IsDeterminedBy parts.now (written values.old.items new.now) values.new.items
        known.new.items) }
{
    set_all(members, false, known);
    write_new(new, values);
    mark_new(new, known);
    let Some(list) = close(alloc, parts, plan, members, values, known)? else {
        return Ok(false);
    };
    reset(parts, members, known, values);
    Ok(all_hold(parts, &plan.order, &list, values))
}
