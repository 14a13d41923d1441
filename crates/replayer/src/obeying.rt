//! What each command does.

ghost use Rattle.std.specs.Prelude.{◌≡◌, ◌<◌, ℕ, length, OnOk, IfOk};
ghost use Rattle.ar_meaning.specs.Systems.{System};
ghost use Rattle.gts_core.specs.Sound.{IsSound};
ghost use Rattle.gts_core.specs.View.{Views};
ghost use Rattle.gts_flatten.specs.Flat.{naming_of_parts};
ghost use Rattle.job_inputs.specs.Flat.{command_of, IsWayOfSystem};
ghost use Rattle.replayer.specs.Observing.{IsLatest};
ghost use Rattle.replayer.specs.Playing.{AreTotal, AnswersOneCommand, IsReplayRefusal};
ghost use Rattle.text_pieces.specs.Faults.{IsFaultInRange};
ghost use Rattle.replayer.specs.declared.ends.End.TheVariants.{Done};

use crate::ends::{End, ReplayFault};
use crate::latest::{Latest, follow};
use crate::ready::find;
use crate::touched::touched;
use crate::trace::{fired, gone_back, listed, no_step, not_fired, shown};
use ar_base::WayId;
use ar_io::Sink;
use gts_core::Gts;
use job_inputs::Command;
use std::alloc::Global;
use stepper::{NoStep, StepFault, Stepper};

/// Obeys a command and writes its lines.
pub(crate) fn obey<K: Sink>(
    alloc: Global,
    gts: &Gts,
    stepper: &mut Stepper,
    latest: &mut Latest,
    command: Command,
    out: &mut K,
) -> Result<End, ReplayFault>
    requires sound { IsSound gts.now }
    requires same { stepper.old.system ≡ gts.now }
    requires below { AreTotal gts.now stepper.old.below }
    requires latest { IsLatest gts.now stepper.old.values latest.old }
    requires firable { IsWayOfSystem gts.now command }
    ensures system { stepper.new.system ≡ stepper.old.system }
    ensures below { OnOk result (AreTotal gts.now stepper.new.below) }
    ensures latest { IfOk result (λ end. end ≡ Done
        → IsLatest gts.now stepper.new.values latest.new) }
    ensures answers { (system : System ℕ) → Views gts.now system
        → AnswersOneCommand (naming_of_parts gts.now) system stepper.old stepper.new
        (command_of gts.now command) (K.state out.old) (K.state out.new) result }
{
    match command {
        Command::Fire(way) => fire(alloc, gts, stepper, latest, way, out),
        Command::Back => back(alloc, gts, stepper, latest, out),
        Command::Show => {
            shown(out, gts, &stepper.values().values)?;
            Ok(End::Done)
        }
        Command::Enabled => {
            find(alloc, stepper, &mut latest.ready)?;
            listed(out, gts, &latest.ready.ways)?;
            Ok(End::Done)
        }
    }
}

// Fires a way.
fn fire<K: Sink>(
    alloc: Global,
    gts: &Gts,
    stepper: &mut Stepper,
    latest: &mut Latest,
    way: WayId,
    out: &mut K,
) -> Result<End, ReplayFault>
    requires sound { IsSound gts.now }
    requires same { stepper.old.system ≡ gts.now }
    requires below { AreTotal gts.now stepper.old.below }
    requires latest { IsLatest gts.now stepper.old.values latest.old }
    requires inside { way.n < length gts.now.ways.items }
    ensures system { stepper.new.system ≡ stepper.old.system }
    ensures below { OnOk result (AreTotal gts.now stepper.new.below) }
    ensures latest { IfOk result (λ end. end ≡ Done
        → IsLatest gts.now stepper.new.values latest.new) }
    ensures answers { (system : System ℕ) → Views gts.now system
        → AnswersOneCommand (naming_of_parts gts.now) system stepper.old stepper.new
        (command_of gts.now (Command.Fire way)) (K.state out.old) (K.state out.new) result }
{
    match stepper.fire(way) {
        Ok(_) => {
            let new = &stepper.values().values;
            let changed = stepper.changed();
            let touched = touched(alloc, &latest.observed, changed)?;
            fired(out, gts, way, &latest.values, new, changed, &touched)?;
            follow(&mut latest.values, changed, new);
            latest.ready.found = false;
            Ok(End::Done)
        }
        Err(fault) => refuse(gts, way, fault, out),
    }
}

/// Tells why a way was not fired.
pub(crate) fn refuse<K: Sink>(
    gts: &Gts,
    way: WayId,
    fault: StepFault,
    out: &mut K,
) -> Result<End, ReplayFault>
    requires inside { way.n < length gts.now.ways.items }
    requires range { IsFaultInRange gts.now fault }
    ensures { IsReplayRefusal gts.now way.n fault (K.state out.old) (K.state out.new) result }
{
    match fault {
        StepFault::Memory => Err(ReplayFault::Memory),
        _ => {
            not_fired(out, gts, way, fault)?;
            Ok(End::Fault)
        }
    }
}

// Takes a step back.
fn back<K: Sink>(
    alloc: Global,
    gts: &Gts,
    stepper: &mut Stepper,
    latest: &mut Latest,
    out: &mut K,
) -> Result<End, ReplayFault>
    requires sound { IsSound gts.now }
    requires same { stepper.old.system ≡ gts.now }
    requires below { AreTotal gts.now stepper.old.below }
    requires latest { IsLatest gts.now stepper.old.values latest.old }
    ensures system { stepper.new.system ≡ stepper.old.system }
    ensures below { OnOk result (AreTotal gts.now stepper.new.below) }
    ensures latest { IfOk result (λ end. end ≡ Done
        → IsLatest gts.now stepper.new.values latest.new) }
    ensures answers { (system : System ℕ) → Views gts.now system
        → AnswersOneCommand (naming_of_parts gts.now) system stepper.old stepper.new
        (command_of gts.now Command.Back) (K.state out.old) (K.state out.new) result }
{
    match stepper.back() {
        Ok(_) => {
            let new = &stepper.values().values;
            let changed = stepper.changed();
            let touched = touched(alloc, &latest.observed, changed)?;
            gone_back(out, gts, &latest.values, new, changed, &touched)?;
            follow(&mut latest.values, changed, new);
            latest.ready.found = false;
            Ok(End::Done)
        }
        Err(NoStep {}) => {
            no_step(out)?;
            Ok(End::Fault)
        }
    }
}
