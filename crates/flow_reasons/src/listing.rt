//! The reasons of a state.

ghost use Rattle.std.specs.Prelude.{◌≡◌, ◌<◌, ℕ, length, IfOk};
ghost use Rattle.ar_base.specs.Lists.{Stands};
ghost use Rattle.gts_core.specs.Sound.{IsSound};
ghost use Rattle.gts_core.specs.View.{net_of};
ghost use Rattle.flow_propagate.specs.Answers.{IsState};
ghost use Rattle.flow_propagate.specs.Plan.{AreReaders};
ghost use Rattle.flow_reasons.specs.Reasons.{AreReasons};
ghost use Rattle.flow_reasons.specs.Answers.{reason_of, reasons_of, IsReasonsAnswer};
ghost use Rattle.flow_reasons.specs.Marks.{IsStanding, AreLastMarks};
ghost use Rattle.flow_reasons.specs.Resting.{HaveRests, reason_made};

use crate::fact_marks::Mark;
use crate::pairs::plain_pairs;
use crate::reason::Reason;
use crate::resting::rests;
use crate::rounds::last_marks;
use ar_base::{Memory, VarId};
use domains::Value;
use flow_propagate::{PropagateFault, make_plan, propagate_by};
use gts_core::{Gts, GtsParts, Valuation};
use std::alloc::Global;

/// Why each flow has the value that the state gives it, by flow number.
///
/// The state has one value for each variable, those of state variables in their domains; its flow values are not read. The
/// error is the fault of its flows, exactly where [`flow_propagate::propagate`] answers it, or want of memory.
pub fn reasons(alloc: Global, gts: &Gts, state: &Valuation) -> Result<Vec<Reason>, PropagateFault>
    requires { IsState gts.now state.now.values.items }
    ensures { IsReasonsAnswer (net_of gts.now) state.now.values.items result }
{
    let plan = make_plan(alloc, gts)?;
    let total = propagate_by(alloc, gts, &plan, state)?;
    let pairs = plain_pairs(alloc, &plan.readers.pairs)?;
    let found = reasons_of(alloc, gts.parts(), &pairs, &total.values)?;
    Ok(found)
}

// The reasons of a standing valuation.
fn reasons_of(
    alloc: Global,
    parts: &GtsParts,
    pairs: &[(u32, u32)],
    values: &[Value],
) -> Result<Vec<Reason>, Memory>
    requires sound { IsSound parts.now }
    requires pairs { AreReaders parts.now pairs.now }
    requires standing { IsStanding parts.now values.now }
    ensures { IfOk result (λ found. AreReasons (net_of parts.now) values.now
        (reasons_of found.items)) }
{
    let marks = last_marks(alloc, parts, pairs, values)?;
    let rests = rests(alloc, parts, pairs, &marks)?;
    listed(alloc, parts, values, &marks, &rests)
}

// The reasons of the flows, by their marks.
fn listed(
    alloc: Global,
    parts: &GtsParts,
    values: &[Value],
    marks: &[Mark],
    rests: &[Vec<VarId>],
) -> Result<Vec<Reason>, Memory>
    requires sound { IsSound parts.now }
    requires standing { IsStanding parts.now values.now }
    requires marks { AreLastMarks parts.now values.now marks.now }
    requires rests { HaveRests parts.now marks.now rests.now }
    ensures { IfOk result (λ found. AreReasons (net_of parts.now) values.now
        (reasons_of found.items)) }
{
    let mut found = Vec::new(alloc);
    for (place, variable) in parts.variables.iter().enumerate() {
        if !variable.is_state {
            let reason = reason_by(
                alloc,
                place as u32,
                values[place],
                marks[place],
                &rests[place],
            )?;
            found.push(reason)?;
        }
    }
    Ok(found)
}

// The reason of a flow by its mark.
fn reason_by(
    alloc: Global,
    flow: u32,
    value: Value,
    mark: Mark,
    rests: &[VarId],
) -> Result<Reason, Memory>
    ensures { IfOk result (λ reason. reason_of reason ≡ reason_made flow value mark rests.now) }
{
    match mark {
        Mark::Added(round, by) => {
            let rests_on = Vec::from_slice(alloc, rests)?;
            Ok(Reason {
                flow: VarId::new(flow),
                value,
                round,
                by: Some(by),
                rests_on,
            })
        }
        _ => Ok(Reason {
            flow: VarId::new(flow),
            value,
            round: 0,
            by: None,
            rests_on: Vec::new(alloc),
        }),
    }
}
