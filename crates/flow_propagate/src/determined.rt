//! What a state determines.

ghost use Rattle.std.specs.Prelude.{◌≡◌, map};
ghost use Rattle.gts_core.specs.Sound.{IsSound};
ghost use Rattle.flow_propagate.specs.Answers.{IsState};
ghost use Rattle.flow_propagate.specs.Determined.{Determines};
ghost use Rattle.flow_propagate.specs.Plan.{IsPlan, AreReaders, IsSchedule, plain_pair};

use crate::closing::known;
use crate::plan::Plan;
use crate::propagation::{FlowFault, PropagateFault};
use crate::searches::first_two;
use crate::totals::{completed, first_broken, marks};
use ar_base::{AssignId, VarId};
use domains::Value;
use gts_core::{Gts, GtsParts, Valuation};
use std::alloc::Global;

/// The total valuation that a state determines, and which of its values are facts.
#[derive(Drop)]
pub struct Determined {
    /// A value for each variable, in its domain.
    pub values: Valuation,
    /// For each variable whether its value is a fact: so it is where the state or an assignment gives it, and not where a flow
    /// keeps its reset value since nothing gives it one.
    pub known: Vec<bool>,
}

/// What [`propagate_by`](crate::propagate_by) answers, with which of the values are facts.
pub fn determine(
    alloc: Global,
    gts: &Gts,
    plan: &Plan,
    state: &Valuation,
) -> Result<Determined, PropagateFault>
    requires state { IsState gts.now state.now.values.items }
    requires plan { IsPlan gts.now plan.now }
    ensures { Determines gts.now state.now.values.items result }
{
    determine_parts(alloc, gts.parts(), plan, &state.values)
}

// The same over the parts of a system.
fn determine_parts(
    alloc: Global,
    parts: &GtsParts,
    plan: &Plan,
    values: &[Value],
) -> Result<Determined, PropagateFault>
    requires sound { IsSound parts.now }
    requires readers { AreReaders parts.now (map plain_pair plan.now.readers.pairs.items) }
    requires schedule { IsSchedule parts.now plan.now.order.items plan.now.places.items }
    requires state { IsState parts.now values.now }
    ensures { Determines parts.now values.now result }
{
    let known = known(alloc, parts, plan, values)?;
    if let Some(n) = first_two(parts, &known.table) {
        return Err(PropagateFault::Flow(FlowFault::Two(VarId::new(n))));
    }
    if let Some(n) = known.outside {
        return Err(PropagateFault::Flow(FlowFault::Outside(VarId::new(n))));
    }
    let total = completed(alloc, parts, values, &known.table)?;
    if let Some(n) = first_broken(parts, &total) {
        return Err(PropagateFault::Flow(FlowFault::Broken(AssignId::new(n))));
    }
    let marks = marks(alloc, &known.table)?;
    Ok(Determined {
        values: Valuation { values: total },
        known: marks,
    })
}
