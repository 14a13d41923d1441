//! The text of why flows have their values.

ghost use Rattle.std.specs.Prelude.{◌≡◌, length, IfOk};
ghost use Rattle.gts_core.specs.View.{net_of};
ghost use Rattle.gts_flatten.specs.Flat.{naming_of_parts};
ghost use Rattle.flow_propagate.specs.Answers.{IsState};
ghost use Rattle.ar_firing.specs.Operands.{HasFlows};
ghost use Rattle.flow_reasons.specs.Answers.{AreReasonsOf};
ghost use Rattle.reason_text.specs.Answers.{Explains, IsObserverIn, observed};
ghost use Rattle.reason_text.specs.Texts.{IsReasonText};

use crate::lines::told_lines;
use crate::telling::told;
use ar_base::Memory;
use ar_io::Sink;
use flow_propagate::PropagateFault;
use flow_reasons::{Reason, reasons};
use gts_core::{Gts, Valuation};
use replayer::ReplayFault;
use std::alloc::Global;

/// Writes why the flows have their values under a valuation: for each flow by number, or, with an observer, for each flow of
/// its cone alone, `PATH = VALUE by reset`, or `PATH = VALUE round R assignment K at L:C`, and where the value rests on
/// variables ` from ` with their paths.
///
/// The valuation is to have flows: so has each that stands in a run. The error is that of the sink, which then has a first
/// part of the text, or want of memory; memory is taken before anything is written.
pub fn print_reasons<K: Sink>(
    alloc: Global,
    gts: &Gts,
    state: &Valuation,
    observer: Option<u32>,
    out: &mut K,
) -> Result<(), ReplayFault>
    requires state { IsState gts.now state.now.values.items }
    requires flows { HasFlows (net_of gts.now) state.now.values.items }
    requires range { IsObserverIn gts.now observer }
    ensures { Explains (K.state out.old) (K.state out.new)
        (IsReasonText (naming_of_parts gts.now) (net_of gts.now) state.now.values.items
        (observed gts.now observer)) result }
{
    let found = reasons_in(alloc, gts, state)?;
    let told = told(alloc, gts, &found, observer)?;
    told_lines(out, gts.parts(), &told, &found)?;
    Ok(())
}

// The reasons of a valuation that has flows.
fn reasons_in(alloc: Global, gts: &Gts, state: &Valuation) -> Result<Vec<Reason>, Memory>
    requires state { IsState gts.now state.now.values.items }
    requires flows { HasFlows (net_of gts.now) state.now.values.items }
    ensures { IfOk result (λ found. AreReasonsOf (net_of gts.now) state.now.values.items
        found.items) }
{
    match reasons(alloc, gts, state) {
        Ok(found) => Ok(found),
        Err(PropagateFault::Flow(_)) => unreachable!(),
        Err(PropagateFault::Memory) => Err(Memory {}),
    }
}
