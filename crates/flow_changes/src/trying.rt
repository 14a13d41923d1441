//! The quick way, taken back where it fails.

ghost use Rattle.std.specs.Prelude.{◌≡◌, ◌<◌, ℕ, Bool, List, length, None, IfOk, IfSome, OnErr};
ghost use Rattle.domains.specs.declared.Value.{Value as Values};
ghost use Rattle.gts_core.specs.Sound.{IsSound};
ghost use Rattle.flow_propagate.specs.Determined.{IsDetermined};
ghost use Rattle.flow_propagate.specs.NewValues.{AreNewValues};
ghost use Rattle.flow_propagate.specs.Plan.{IsPlan};
ghost use Rattle.flow_changes.specs.Cone.{IsCone};
ghost use Rattle.flow_changes.specs.Picking.{KeepsOthers, ArePicked, AreWithin};
ghost use Rattle.flow_changes.specs.Present.{Propagates};

use crate::following::follow;
use crate::picking::{picked, put_back};
use crate::{Changes, changes_at};
use ar_base::{Memory, VarId};
use domains::Value;
use flow_propagate::{Determined, Plan};
use gts_core::GtsParts;
use std::alloc::Global;

/// The values and marks of the members of a cone, in their order.
#[derive(Drop)]
struct Snapshot {
    /// The values.
    values: Vec<Value>,
    /// The marks.
    known: Vec<bool>,
}

// The same; where it fails all is as it was.
pub(crate) fn attempt(
    alloc: Global,
    parts: &GtsParts,
    plan: &Plan,
    members: &[u32],
    new: &[(VarId, Value)],
    determined: &mut Determined,
) -> Result<Option<Changes>, Memory>
    requires sound { IsSound parts.now }
    requires plan { IsPlan parts.now plan.now }
    requires new { AreNewValues parts.now new.now }
    requires cone { IsCone parts.now new.now members.now }
    requires determined { IsDetermined parts.now determined.old.values.values.items
        determined.old.known.items }
    ensures some { IfOk result (λ o. IfSome o
        (Propagates parts.now determined.old.values.values.items determined.old.known.items new.now
        determined.new.values.values.items determined.new.known.items)) }
    ensures none { IfOk result (λ o. o ≡ None
        → (determined.new.values.values.items ≡ determined.old.values.values.items)
        × (determined.new.known.items ≡ determined.old.known.items)) }
    ensures err { OnErr result ((determined.new.values.values.items
        ≡ determined.old.values.values.items)
        × (determined.new.known.items ≡ determined.old.known.items)) }
{
    let snapshot = snapshot_of(alloc, members, determined)?;
    match go(alloc, parts, plan, members, &snapshot, new, determined) {
        Ok(Some(changes)) => Ok(Some(changes)),
        Ok(None) => {
            back(members, &snapshot, determined);
            Ok(None)
        }
        Err(memory) => {
            back(members, &snapshot, determined);
            Err(memory)
        }
    }
}

// What the members have.
fn snapshot_of(alloc: Global, members: &[u32], determined: &Determined) -> Result<Snapshot, Memory>
    requires values { AreWithin members.now determined.now.values.values.items }
    requires known { AreWithin members.now determined.now.known.items }
    ensures values { IfOk result (λ s.
        ArePicked members.now determined.now.values.values.items s.values.items) }
    ensures known { IfOk result (λ s.
        ArePicked members.now determined.now.known.items s.known.items) }
{
    let values = picked(alloc, members, &determined.values.values)?;
    let known = picked(alloc, members, &determined.known)?;
    Ok(Snapshot { values, known })
}

// Writes a snapshot back.
fn back(members: &[u32], snapshot: &Snapshot, determined: &mut Determined)
    requires values_long { length snapshot.now.values.items ≡ length members.now }
    requires known_long { length snapshot.now.known.items ≡ length members.now }
    requires values { AreWithin members.now determined.old.values.values.items }
    requires known { AreWithin members.now determined.old.known.items }
    ensures values { (was : List Values) → ArePicked members.now was snapshot.now.values.items
        → KeepsOthers members.now was determined.old.values.values.items
        → determined.new.values.values.items ≡ was }
    ensures known { (was : List Bool) → ArePicked members.now was snapshot.now.known.items
        → KeepsOthers members.now was determined.old.known.items
        → determined.new.known.items ≡ was }
{
    put_back(members, &snapshot.values, &mut determined.values.values);
    put_back(members, &snapshot.known, &mut determined.known);
}

// Goes the quick way, and tells what changed; none where it fails.
fn go(
    alloc: Global,
    parts: &GtsParts,
    plan: &Plan,
    members: &[u32],
    snapshot: &Snapshot,
    new: &[(VarId, Value)],
    determined: &mut Determined,
) -> Result<Option<Changes>, Memory>
    requires sound { IsSound parts.now }
    requires plan { IsPlan parts.now plan.now }
    requires new { AreNewValues parts.now new.now }
    requires cone { IsCone parts.now new.now members.now }
    requires determined { IsDetermined parts.now determined.old.values.values.items
        determined.old.known.items }
    requires values { ArePicked members.now determined.old.values.values.items
        snapshot.now.values.items }
    requires known { ArePicked members.now determined.old.known.items snapshot.now.known.items }
    ensures values { KeepsOthers members.now determined.old.values.values.items
        determined.new.values.values.items }
    ensures known { KeepsOthers members.now determined.old.known.items determined.new.known.items }
    ensures some { IfOk result (λ o. IfSome o
        (Propagates parts.now determined.old.values.values.items determined.old.known.items new.now
        determined.new.values.values.items determined.new.known.items)) }
{
    let done = follow(
        alloc,
        parts,
        plan,
        members,
        new,
        &mut determined.values.values,
        &mut determined.known,
    )?;
    if !done {
        return Ok(None);
    }
    let changes = changes_at(
        alloc,
        parts,
        members,
        &snapshot.values,
        &snapshot.known,
        &determined.values.values,
        &determined.known,
    )?;
    Ok(Some(changes))
}
