//! The cone of an observer.

ghost use Rattle.std.specs.Prelude.{◌≡◌, ◌==◌, ◌<◌, ℕ, [], if◌then◌else◌, length, IfOk};
ghost use Rattle.ar_base.specs.Lists.{Stands, IsOneOf};
ghost use Rattle.gts_core.specs.View.{net_of, numbered};
ghost use Rattle.gts_core.specs.declared.system.Observer.{Observer};
ghost use Rattle.flow_reasons.specs.ReasonsInside.{IsReasonCone};
ghost use Rattle.flow_reasons.specs.Answers.{numbers_of, reasons_of, AreOfState};
ghost use Rattle.flow_reasons.specs.Cones.{AreOrderly, AreReachedVariables, AreRestsUpon};

use crate::reason::Reason;
use crate::seeing::{members, see_all};
use ar_base::{Memory, VarId};
use gts_core::{Gts, add_named};
use std::alloc::Global;

/// The cone of an observer: the variables that it names, and with each flow the variables that its reason rests on, by number.
///
/// The number is that of an observer of the system, and the reasons are those of a state of the system. The error is want of
/// memory.
pub fn cone(
    alloc: Global,
    gts: &Gts,
    observer: u32,
    reasons: &[Reason],
) -> Result<Vec<VarId>, Memory>
    requires range { observer < length gts.now.observers.items }
    requires reasons { AreOfState gts.now reasons.now }
    ensures { (one : Observer) → Stands gts.now.observers.items observer one
        → IfOk result (λ found. IsReasonCone (net_of gts.now) (reasons_of reasons.now)
        (numbered one.value) (numbers_of found.items)) }
{
    let parts = gts.parts();
    let mut first = Vec::new(alloc);
    add_named(&parts.observers[observer as usize].value, &mut first)?;
    let seen = reached(alloc, parts.variables.len(), reasons, &first)?;
    members(alloc, &seen)
}

// Which variables are reached from these by the reasons.
fn reached(
    alloc: Global,
    count: usize,
    reasons: &[Reason],
    first: &[VarId],
) -> Result<Vec<bool>, Memory>
    requires orderly { AreOrderly count (reasons_of reasons.now) }
    requires below { (n : ℕ) → IsOneOf (numbers_of first.now) n → n < count }
    ensures long { IfOk result (λ seen. length seen.items ≡ count) }
    ensures reached { IfOk result (λ seen.
        AreReachedVariables (reasons_of reasons.now) (numbers_of first.now) seen.items) }
{
    let mut seen = vec![in alloc; false; count]?;
    let mut found = Vec::new(alloc);
    see_all(first, &mut seen, &mut found)?;
    let mut at = 0;
    'follow: while at < found.len() {
        see_all(rests_upon(reasons, found[at]), &mut seen, &mut found)?;
        at += 1;
    }
    Ok(seen)
}

// The variables that the reason of this variable rests on; none where it has no reason.
fn rests_upon(reasons: &[Reason], variable: u32) -> &[VarId]
    requires { (count : ℕ) × AreOrderly count (reasons_of reasons.now) }
    ensures { AreRestsUpon (reasons_of reasons.now) variable (numbers_of result.now) }
{
    let place = reasons.partition_point(|reason| reason.flow.n < variable);
    if place < reasons.len() {
        rests_of(&reasons[place], variable)
    } else {
        &[]
    }
}

// The variables that the reason rests on, where it is that of this variable.
fn rests_of(reason: &Reason, variable: u32) -> &[VarId]
    ensures { result.now
        ≡ (if reason.now.flow.n == variable then reason.now.rests_on.items else []) }
{
    if reason.flow.n == variable {
        &reason.rests_on
    } else {
        &[]
    }
}
