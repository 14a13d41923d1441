//! What a change of the state reaches.

ghost use Rattle.std.specs.Prelude.{◌≡◌, ◌<◌, ℕ, true, length, map, IfOk};
ghost use Rattle.ar_base.specs.Lists.{IsOneOf, Stands};
ghost use Rattle.gts_core.specs.Sound.{IsSound};
ghost use Rattle.flow_propagate.specs.Plan.{AreReaders, Reader, plain_pair};
ghost use Rattle.flow_propagate.specs.NewValues.{AreNewValues, IsRenewed};
ghost use Rattle.flow_changes.specs.Cone.{IsCone};
ghost use Rattle.flow_changes.specs.Known.{changing_numbers};
ghost use Rattle.flow_changes.specs.Picking.{AreWithin};
ghost use Rattle.flow_propagate.specs.Marks.{AreMarked};
ghost use Rattle.flow_changes.specs.Gathering.{Sees, IsTargetOf, IsFollowed};

use crate::picking::set_all;
use ar_base::{AssignId, Memory, VarId};
use domains::Value;
use flow_propagate::{Runs, pairs_of};
use gts_core::GtsParts;
use std::alloc::Global;

// The variables that new values reach, ascending. The marks, all unset, are so again afterwards.
pub(crate) fn cone(
    alloc: Global,
    parts: &GtsParts,
    readers: &Runs,
    new: &[(VarId, Value)],
    marks: &mut Vec<bool>,
) -> Result<Vec<u32>, Memory>
    requires sound { IsSound parts.now }
    requires readers { AreReaders parts.now (map plain_pair readers.now.pairs.items) }
    requires new { AreNewValues parts.now new.now }
    requires long { length marks.old.items ≡ length parts.now.variables.items }
    requires unset { (n : ℕ) → Stands marks.old.items n true → ⊥ }
    ensures unset { marks.new.items ≡ marks.old.items }
    ensures cone { IfOk result (λ members. IsCone parts.now new.now members.items) }
{
    let mut found = Vec::new(alloc);
    let all = gather(parts, readers, new, marks, &mut found);
    set_all(&found, false, marks);
    all?;
    found.sort_unstable();
    found.dedup();
    Ok(found)
}

// Gathers what new values reach, and marks it.
fn gather(
    parts: &GtsParts,
    readers: &Runs,
    new: &[(VarId, Value)],
    marks: &mut Vec<bool>,
    found: &mut Vec<u32>,
) -> Result<(), Memory>
    requires sound { IsSound parts.now }
    requires readers { AreReaders parts.now (map plain_pair readers.now.pairs.items) }
    requires new { AreNewValues parts.now new.now }
    requires long { length marks.old.items ≡ length parts.now.variables.items }
    requires unset { (n : ℕ) → Stands marks.old.items n true → ⊥ }
    requires empty { length found.old.items ≡ 0 }
    ensures long { length marks.new.items ≡ length marks.old.items }
    ensures marking { AreMarked marks.new.items found.new.items }
    ensures reached { IfOk result (λ _.
        IsFollowed parts.now new.now found.new.items (length found.new.items)) }
{
    see_new(new, marks, found)?;
    follow(parts, readers, new, marks, found)
}

// Gathers the targets of the assignments that name what was gathered, until none is new.
fn follow(
    parts: &GtsParts,
    readers: &Runs,
    new: &[(VarId, Value)],
    marks: &mut Vec<bool>,
    found: &mut Vec<u32>,
) -> Result<(), Memory>
    requires sound { IsSound parts.now }
    requires readers { AreReaders parts.now (map plain_pair readers.now.pairs.items) }
    requires long { length marks.old.items ≡ length parts.now.variables.items }
    requires marking { AreMarked marks.old.items found.old.items }
    requires followed { IsFollowed parts.now new.now found.old.items 0 }
    ensures long { length marks.new.items ≡ length marks.old.items }
    ensures marking { AreMarked marks.new.items found.new.items }
    ensures reached { IfOk result (λ _.
        IsFollowed parts.now new.now found.new.items (length found.new.items)) }
{
    let mut at = 0;
    'follow: while at < found.len() {
        let run = pairs_of(readers, found[at]);
        see_targets(parts, run, marks, found)?;
        at += 1;
    }
    Ok(())
}

// Gathers the variables that get new values.
fn see_new(
    new: &[(VarId, Value)],
    marks: &mut Vec<bool>,
    found: &mut Vec<u32>,
) -> Result<(), Memory>
    requires within { AreWithin (changing_numbers new.now) marks.old.items }
    requires marking { AreMarked marks.old.items found.old.items }
    ensures long { length marks.new.items ≡ length marks.old.items }
    ensures marking { AreMarked marks.new.items found.new.items }
    ensures sees { IfOk result (λ _. Sees (IsRenewed new.now) marks.old.items found.old.items
        marks.new.items found.new.items) }
{
    for (variable, _) in new {
        see(variable.n, marks, found)?;
    }
    Ok(())
}

// Gathers the targets of the assignments of these pairs.
fn see_targets(
    parts: &GtsParts,
    pairs: &[(VarId, AssignId)],
    marks: &mut Vec<bool>,
    found: &mut Vec<u32>,
) -> Result<(), Memory>
    requires sound { IsSound parts.now }
    requires within { (r : Reader) → IsOneOf pairs.now r → r.1.n < length parts.now.assigns.items }
    requires long { length marks.old.items ≡ length parts.now.variables.items }
    requires marking { AreMarked marks.old.items found.old.items }
    ensures long { length marks.new.items ≡ length marks.old.items }
    ensures marking { AreMarked marks.new.items found.new.items }
    ensures sees { IfOk result (λ _. Sees (IsTargetOf parts.now pairs.now) marks.old.items
        found.old.items marks.new.items found.new.items) }
{
    for (_, assign) in pairs {
        see(parts.assigns[assign.n as usize].target.n, marks, found)?;
    }
    Ok(())
}

// Gathers a variable, where it is not marked, and marks it.
fn see(n: u32, marks: &mut Vec<bool>, found: &mut Vec<u32>) -> Result<(), Memory>
    requires within { n < length marks.old.items }
    requires marking { AreMarked marks.old.items found.old.items }
    ensures long { length marks.new.items ≡ length marks.old.items }
    ensures marking { AreMarked marks.new.items found.new.items }
    ensures sees { IfOk result (λ _. Sees (λ m. m ≡ n) marks.old.items found.old.items
        marks.new.items found.new.items) }
{
    let place = n as usize;
    if marks[place] {
        return Ok(());
    }
    found.push(n)?;
    marks[place] = true;
    Ok(())
}
