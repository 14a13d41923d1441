//! The lines of a trace, moment by moment.

ghost use Rattle.std.specs.Prelude.{◌≡◌, ◌<◌, ◌++◌, codes, decimal, length};
ghost use Rattle.ar_base.specs.Texts.{line};
ghost use Rattle.ar_io.specs.Handing.{Writes};
ghost use Rattle.ar_meaning.specs.TraceText.{flow_fault_text};
ghost use Rattle.flow_propagate.specs.Answers.{fault_of};
ghost use Rattle.gts_core.specs.Readings.{IsTotal};
ghost use Rattle.gts_flatten.specs.Flat.{naming_of_parts};
ghost use Rattle.text_pieces.specs.WayLabels.{way_label};
ghost use Rattle.text_pieces.specs.Faults.{IsInRange};
ghost use Rattle.replayer.specs.Listing.{AreInside};
ghost use Rattle.flow_changes.specs.Changes.{AreChanges};
ghost use Rattle.replayer.specs.Observing.{AreTouched};
ghost use Rattle.replayer.specs.Printing.{values_text, changes_text, way_lines};
ghost use Rattle.text_pieces.specs.Faults.{step_text, IsFaultInRange};

use crate::enabled::way_lines;
use crate::shown::{all_lines, changed_lines};
use ar_base::{VarId, WayId};
use ar_io::{Sink, SinkFailed, write_count, write_text};
use domains::Value;
use flow_propagate::FlowFault;
use gts_core::Gts;
use stepper::StepFault;
use text_pieces::{print_flow_fault, print_label, print_step_fault};

/// Writes the lines of a start.
pub(crate) fn started<K: Sink>(out: &mut K, gts: &Gts, values: &[Value]) -> Result<(), SinkFailed>
    requires { length values.now ≡ length gts.now.variables.items }
    ensures { Writes (K.state out.old) (K.state out.new)
        (line (codes "start") ++ values_text gts.now values.now) result }
{
    write_text(out, "start\n")?;
    all_lines(out, gts.parts(), values)
}

/// Writes the line of a fault of the start.
pub(crate) fn not_started<K: Sink>(
    out: &mut K,
    gts: &Gts,
    fault: FlowFault,
) -> Result<(), SinkFailed>
    requires { IsInRange gts.now fault }
    ensures { Writes (K.state out.old) (K.state out.new)
        (line (codes "fault: start: " ++ flow_fault_text (naming_of_parts gts.now)
        (fault_of fault))) result }
{
    write_text(out, "fault: start: ")?;
    print_flow_fault(gts, fault, out)?;
    write_text(out, "\n")
}

/// Writes the lines of a way that was fired.
pub(crate) fn fired<K: Sink>(
    out: &mut K,
    gts: &Gts,
    way: WayId,
    old: &[Value],
    new: &[Value],
    changed: &[VarId],
    touched: &[u32],
) -> Result<(), SinkFailed>
    requires way { way.n < length gts.now.ways.items }
    requires old { IsTotal gts.now old.now }
    requires new { IsTotal gts.now new.now }
    requires changed { AreChanges old.now new.now changed.now }
    requires touched { AreTouched gts.now changed.now touched.now }
    ensures { Writes (K.state out.old) (K.state out.new)
        (line (codes "fire " ++ way_label gts.now way.n) ++ changes_text gts.now old.now new.now)
        result }
{
    write_text(out, "fire ")?;
    print_label(gts, way, out)?;
    write_text(out, "\n")?;
    changed_lines(out, gts.parts(), old, new, changed, touched)
}

/// Writes the line of a way that meets a fault.
pub(crate) fn not_fired<K: Sink>(
    out: &mut K,
    gts: &Gts,
    way: WayId,
    fault: StepFault,
) -> Result<(), SinkFailed>
    requires way { way.n < length gts.now.ways.items }
    requires range { IsFaultInRange gts.now fault }
    ensures { Writes (K.state out.old) (K.state out.new)
        (line (codes "fault: " ++ (way_label gts.now way.n
        ++ (codes ": " ++ step_text gts.now fault)))) result }
{
    write_text(out, "fault: ")?;
    print_label(gts, way, out)?;
    write_text(out, ": ")?;
    print_step_fault(gts, fault, out)?;
    write_text(out, "\n")
}

/// Writes the lines of a step that was taken back.
pub(crate) fn gone_back<K: Sink>(
    out: &mut K,
    gts: &Gts,
    old: &[Value],
    new: &[Value],
    changed: &[VarId],
    touched: &[u32],
) -> Result<(), SinkFailed>
    requires old { IsTotal gts.now old.now }
    requires new { IsTotal gts.now new.now }
    requires changed { AreChanges old.now new.now changed.now }
    requires touched { AreTouched gts.now changed.now touched.now }
    ensures { Writes (K.state out.old) (K.state out.new)
        (line (codes "back") ++ changes_text gts.now old.now new.now) result }
{
    write_text(out, "back\n")?;
    changed_lines(out, gts.parts(), old, new, changed, touched)
}

/// Writes that there is no step to take back.
pub(crate) fn no_step<K: Sink>(out: &mut K) -> Result<(), SinkFailed>
    ensures { Writes (K.state out.old) (K.state out.new) (line (codes "fault: back: no step"))
        result }
{
    write_text(out, "fault: back: no step\n")
}

/// Writes the lines of all variables and observers.
pub(crate) fn shown<K: Sink>(out: &mut K, gts: &Gts, values: &[Value]) -> Result<(), SinkFailed>
    requires { length values.now ≡ length gts.now.variables.items }
    ensures { Writes (K.state out.old) (K.state out.new)
        (line (codes "show") ++ values_text gts.now values.now) result }
{
    write_text(out, "show\n")?;
    all_lines(out, gts.parts(), values)
}

/// Writes the lines of a list of these ways.
pub(crate) fn listed<K: Sink>(out: &mut K, gts: &Gts, ways: &[WayId]) -> Result<(), SinkFailed>
    requires { AreInside gts.now ways.now }
    ensures { Writes (K.state out.old) (K.state out.new)
        (line (codes "enabled") ++ way_lines gts.now ways.now) result }
{
    write_text(out, "enabled\n")?;
    way_lines(out, gts, ways)
}

/// Writes the line of the end, where so many steps stand.
pub(crate) fn ended<K: Sink>(out: &mut K, steps: usize) -> Result<(), SinkFailed>
    ensures { Writes (K.state out.old) (K.state out.new) (line (codes "end " ++ decimal steps))
        result }
{
    write_text(out, "end ")?;
    write_count(out, steps)?;
    write_text(out, "\n")
}
