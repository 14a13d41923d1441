//! The fault that a set of events meets.

ghost use Rattle.std.specs.Prelude.{◌≡◌, ℕ, List, reverse, IfOk, IfSome};
ghost use Rattle.ar_meaning.specs.Flows.{FlowFault as MetFault};
ghost use Rattle.ar_meaning.specs.Systems.{System};
ghost use Rattle.ar_firing.specs.Cuts.{Conflicts};
ghost use Rattle.gts_core.specs.View.{Views};
ghost use Rattle.text_pieces.specs.Faults.{IsInRange};
ghost use Rattle.min_cuts.specs.Kept.{numbers_of_set};
ghost use Rattle.cut_text.specs.Tables.{labels_at, HaveWays, IsMet, TellsFlow};

use ar_base::{EventId, Memory, WayId};
use flow_propagate::{FlowFault, PropagateFault};
use gts_core::Gts;
use std::alloc::Global;
use stepper::{StepFault, Stepper};

/// The flow fault that the start or one of these events meets, where they are fired in this order;
/// None where they meet none. Where they are those of a conflict it is the conflict's.
pub(crate) fn fault_met(
    alloc: Global,
    gts: &Gts,
    ways: &[WayId],
    events: &[EventId],
) -> Result<Option<FlowFault>, Memory>
    requires { HaveWays gts.now ways.now (numbers_of_set events.now) }
    ensures range { IfOk result (λ found. IfSome found (IsInRange gts.now)) }
    ensures met { (system : System ℕ) → Views gts.now system → (dropped : List ℕ) (fault : MetFault)
        → Conflicts system dropped (reverse (labels_at gts.now ways.now (numbers_of_set events.now))) fault
        → IfOk result (IsMet fault) }
{
    let _sound_parts = gts.parts();
    let mut stepper = match Stepper::start(alloc, gts) {
        Ok(stepper) => stepper,
        Err(PropagateFault::Flow(fault)) => return Ok(Some(fault)),
        Err(PropagateFault::Memory) => return Err(Memory {}),
    };
    for event in events {
        match stepper.fire(ways[event.n as usize]) {
            Ok(()) => {}
            Err(fault) => return flow_fault(fault),
        }
    }
    Ok(None)
}

// The fault of the flows, where it is one.
fn flow_fault(fault: StepFault) -> Result<Option<FlowFault>, Memory>
    ensures { TellsFlow fault result }
{
    match fault {
        StepFault::Flow(flow) => Ok(Some(flow)),
        StepFault::Memory => Err(Memory {}),
        _ => Ok(None),
    }
}
