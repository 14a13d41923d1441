//! Propagation.

ghost use Rattle.gts_core.specs.View.{net_of};
ghost use Rattle.flow_propagate.specs.Plan.{IsPlan};
ghost use Rattle.flow_propagate.specs.Answers.{IsFlowAnswer, IsState};

use crate::determined::determine;
use crate::plan::{Plan, make_plan};
use crate::propagation::PropagateFault;
use gts_core::{Gts, Valuation};
use std::alloc::Global;

/// The flows that a state determines: the total valuation, or the first fault that applies.
///
/// The state has one value for each variable, those of state variables in their domains; its flow values are not read. All
/// flows start unknown, and the facts are the least set of values that holds the state's and is closed under the assertions.
/// The fault is the least flow with two facts; else the least flow for which a reached assignment yields a value outside its
/// domain; else, once flows without a fact have their reset values, the least assignment that is reached and does not have
/// its target's value.
pub fn propagate(alloc: Global, gts: &Gts, state: &Valuation) -> Result<Valuation, PropagateFault>
    requires { IsState gts.now state.now.values.items }
    ensures { IsFlowAnswer (net_of gts.now) state.now.values.items result }
{
    let plan = make_plan(alloc, gts)?;
    propagate_by(alloc, gts, &plan, state)
}

/// What [`propagate`] answers, by the plan of the system, which was made before.
pub fn propagate_by(
    alloc: Global,
    gts: &Gts,
    plan: &Plan,
    state: &Valuation,
) -> Result<Valuation, PropagateFault>
    requires state { IsState gts.now state.now.values.items }
    requires plan { IsPlan gts.now plan.now }
    ensures { IsFlowAnswer (net_of gts.now) state.now.values.items result }
{
    match determine(alloc, gts, plan, state) {
        Ok(determined) => Ok(determined.values),
        Err(fault) => Err(fault),
    }
}
