//! The start of a run, and what a way that is fired does to the state.

ghost use Rattle.std.specs.Prelude.{◌≡◌, ◌<◌, ℕ, length, IfErr, IfOk, OnErr, OnOk};
ghost use Rattle.ar_meaning.specs.Systems.{Way};
ghost use Rattle.ar_meaning.specs.Runs.{first_values};
ghost use Rattle.flow_propagate.specs.NewValues.{AreNewValues, written};
ghost use Rattle.flow_propagate.specs.Plan.{IsPlan};
ghost use Rattle.ar_meaning.specs.Flows.{Flows, Total};
ghost use Rattle.flow_changes.specs.Present.{IsPresent, IsFaultOf};
ghost use Rattle.flow_changes.specs.Changes.{AreChanges};
ghost use Rattle.way_flags.specs.Index.{IsWayIndex};
ghost use Rattle.stepper.specs.Changes.{before, point_at};
ghost use Rattle.gts_core.specs.View.{net_of, IsWayAt};
ghost use Rattle.gts_core.specs.Readings.{IsTotal};
ghost use Rattle.way_flags.specs.Ready.{IsReadyWay};
ghost use Rattle.way_flags.specs.Ways.{AreFlags};
ghost use Rattle.stepper.specs.Steps.{IsStepFault};

use crate::changes::StepChanges;
use crate::faults::StepFault;
use ar_base::{Memory, VarId, WayId};
use domains::Value;
use flow_changes::{Present, propagate_from, restore};
use flow_propagate::{Plan, PropagateFault};
use gts_core::{Gts, GtsParts, Valuation};
use std::alloc::Global;
use way_flags::{ReceiveFault, WayIndex, is_set, received, renew};

/// What the state variables receive where a way is fired, or the fault of the way or of what they receive.
pub(crate) fn next_values(
    alloc: Global,
    gts: &Gts,
    flags: &[bool],
    values: &[Value],
    way: WayId,
) -> Result<Vec<(VarId, Value)>, StepFault>
    requires total { IsTotal gts.now values.now }
    requires right { AreFlags gts.now values.now flags.now }
    requires inside { way.n < length gts.now.ways.items }
    ensures new { IfOk result (λ new. AreNewValues gts.now new.items) }
    ensures ready { IfOk result (λ new. (w : Way ℕ) → IsWayAt gts.now way.n w
        → IsReadyWay (net_of gts.now) values.now w (written values.now new.items)) }
    ensures fault { IfErr result (λ f. (w : Way ℕ) → IsWayAt gts.now way.n w
        → IsStepFault (net_of gts.now) values.now w f) }
{
    if !is_set(flags, way) {
        return Err(StepFault::NotEnabled);
    }
    match received(alloc, gts.parts(), flags, values, way) {
        Ok(new) => Ok(new),
        Err(ReceiveFault::Clash(variable)) => Err(StepFault::Clash(variable)),
        Err(ReceiveFault::Range(variable)) => Err(StepFault::Range(variable)),
        Err(ReceiveFault::Memory) => Err(StepFault::Memory),
    }
}

/// The declared values.
pub(crate) fn declared(alloc: Global, parts: &GtsParts) -> Result<Valuation, Memory>
    ensures { IfOk result (λ state. state.values.items
        ≡ first_values (net_of parts.now).variables) }
{
    let mut values = Vec::new(alloc);
    for variable in &parts.variables {
        values.push(variable.value)?;
    }
    Ok(Valuation { values })
}

/// Goes on to what the state with these new values determines, and renews the flags; answers what changed. After a refusal
/// all is as it was.
pub(crate) fn go_on(
    alloc: Global,
    gts: &Gts,
    plan: &Plan,
    index: &WayIndex,
    new: &[(VarId, Value)],
    present: &mut Present,
    can: &mut Vec<bool>,
) -> Result<StepChanges, PropagateFault>
    requires plan { IsPlan gts.now plan.now }
    requires index { IsWayIndex gts.now index.now }
    requires present { IsPresent gts.now present.old }
    requires flags { AreFlags gts.now present.old.determined.values.values.items can.old.items }
    requires new { AreNewValues gts.now new.now }
    ensures present { IsPresent gts.now present.new }
    ensures flags { AreFlags gts.now present.new.determined.values.values.items can.new.items }
    ensures flows { OnOk result (Flows (net_of gts.now)
        (written present.old.determined.values.values.items new.now)
        (Total present.new.determined.values.values.items)) }
    ensures back { IfOk result (λ step.
        before gts.now (point_at present.new can.new.items) step
        ≡ point_at present.old can.old.items) }
    ensures long { IfOk result (λ step.
        length step.flows.variables.items ≡ length step.flows.old.items) }
    ensures changes { IfOk result (λ step.
        AreChanges present.old.determined.values.values.items
        present.new.determined.values.values.items step.flows.variables.items) }
    ensures fault { IfErr result (IsFaultOf gts.now
        (written present.old.determined.values.values.items new.now)) }
    ensures err { OnErr result (point_at present.new can.new.items
        ≡ point_at present.old can.old.items) }
{
    let parts = gts.parts();
    let flows = propagate_from(alloc, gts, plan, present, new)?;
    let values = &present.determined.values.values;
    match renew(alloc, parts, index, values, &flows.variables, can) {
        Ok(ways) => Ok(StepChanges { flows, ways }),
        Err(memory) => {
            restore(parts, present, &flows);
            Err(PropagateFault::from(memory))
        }
    }
}
