//! The texts of faults of the flows and of steps.

ghost use Rattle.std.specs.Prelude.{◌++◌, codes};
ghost use Rattle.ar_base.specs.Texts.{text_at};
ghost use Rattle.ar_io.specs.Handing.{Writes};
ghost use Rattle.ar_meaning.specs.TraceText.{flow_fault_text};
ghost use Rattle.flow_propagate.specs.Answers.{fault_of};
ghost use Rattle.gts_flatten.specs.Flat.{naming_of_parts};
ghost use Rattle.text_pieces.specs.Faults.{step_text, IsInRange, IsFaultInRange};

use crate::pieces::{place, variable_path};
use ar_io::{Sink, SinkFailed, write_number, write_text};
use flow_propagate::FlowFault;
use gts_core::{Gts, GtsParts};
use stepper::StepFault;

/// Writes what a fault of the flows is, without a line feed. Takes no memory.
pub fn print_flow_fault<K: Sink>(gts: &Gts, fault: FlowFault, out: &mut K) -> Result<(), SinkFailed>
    requires { IsInRange gts.now fault }
    ensures { Writes (K.state out.old) (K.state out.new)
        (flow_fault_text (naming_of_parts gts.now) (fault_of fault)) result }
{
    let parts = gts.parts();
    match fault {
        FlowFault::Two(x) => about_flow(out, parts, x.n, " has two values"),
        FlowFault::Outside(x) => about_flow(out, parts, x.n, " is outside its domain"),
        FlowFault::Broken(a) => {
            write_text(out, "assignment ")?;
            write_number(out, a.n + 1)?;
            write_text(out, " at ")?;
            place(out, parts.assigns[a.n as usize].at)?;
            write_text(out, " does not hold")
        }
    }
}

// What a flow is.
fn about_flow<K: Sink>(out: &mut K, parts: &GtsParts, n: u32, what: &str) -> Result<(), SinkFailed>
    ensures { Writes (K.state out.old) (K.state out.new)
        (codes "flow " ++ (text_at (naming_of_parts parts.now).variables n ++ what.now)) result }
{
    write_text(out, "flow ")?;
    write_text(out, variable_path(parts, n))?;
    write_text(out, what)
}

/// Writes what a fault of a step is, without a line feed, and nothing for want of memory. Takes no memory.
pub fn print_step_fault<K: Sink>(gts: &Gts, fault: StepFault, out: &mut K) -> Result<(), SinkFailed>
    requires { IsFaultInRange gts.now fault }
    ensures { Writes (K.state out.old) (K.state out.new) (step_text gts.now fault) result }
{
    match fault {
        StepFault::NotEnabled => write_text(out, "not enabled"),
        StepFault::Clash(x) => {
            write_text(out, "two values for ")?;
            write_text(out, variable_path(gts.parts(), x.n))
        }
        StepFault::Range(x) => {
            write_text(out, variable_path(gts.parts(), x.n))?;
            write_text(out, " outside its domain")
        }
        StepFault::Flow(flow) => print_flow_fault(gts, flow, out),
        StepFault::Memory => write_text(out, ""),
    }
}
