//! Replays.

ghost use Rattle.std.specs.Prelude.{◌≡◌, ℕ, List, [], map};
ghost use Rattle.ar_meaning.specs.Runs.{Start, Command as RunCommand};
ghost use Rattle.ar_meaning.specs.RunsInside.{FiresWays};
ghost use Rattle.ar_meaning.specs.Systems.{System};
ghost use Rattle.gts_core.specs.Sound.{IsSound};
ghost use Rattle.gts_core.specs.View.{Views, net_of};
ghost use Rattle.gts_flatten.specs.Flat.{naming_of_parts};
ghost use Rattle.job_inputs.specs.Flat.{command_of, AreFirable};
ghost use Rattle.replayer.specs.ReplaysInside.{AnswersReplay};
ghost use Rattle.stepper.specs.Steps.{IsStartFault};

use crate::ends::{End, ReplayFault};
use crate::latest::at_start;
use crate::obeying::obey;
use crate::trace::{ended, not_started, started};
use ar_base::Memory;
use ar_io::Sink;
use flow_propagate::PropagateFault;
use gts_core::Gts;
use job_inputs::Command;
use std::alloc::Global;
use stepper::Stepper;

/// Runs the commands on the system and writes the trace of the run.
pub fn replay<K: Sink>(
    alloc: Global,
    gts: &Gts,
    commands: &[Command],
    out: &mut K,
) -> Result<End, ReplayFault>
    requires { AreFirable gts.now commands.now }
    ensures { (system : System ℕ) → Views gts.now system
        → AnswersReplay (naming_of_parts gts.now) system (map (command_of gts.now) commands.now)
        (K.state out.old) (K.state out.new) result }
{
    // The parts are sound, and so each run has its trace.
    let _sound_parts = gts.parts();
    match Stepper::start(alloc, gts) {
        Ok(stepper) => play(alloc, gts, stepper, commands, out),
        Err(fault) => give_up(gts, fault, out),
    }
}

// Tells why the run does not start.
fn give_up<K: Sink>(gts: &Gts, fault: PropagateFault, out: &mut K) -> Result<End, ReplayFault>
    requires sound { IsSound gts.now }
    requires fault { IsStartFault (net_of gts.now) fault }
    ensures { (system : System ℕ) → Views gts.now system → (commands : List RunCommand)
        → FiresWays system commands
        → AnswersReplay (naming_of_parts gts.now) system commands (K.state out.old)
        (K.state out.new) result }
{
    match fault {
        PropagateFault::Flow(flow) => {
            not_started(out, gts, flow)?;
            Ok(End::Fault)
        }
        PropagateFault::Memory => Err(ReplayFault::Memory),
    }
}

// Runs the commands from the start.
fn play<K: Sink>(
    alloc: Global,
    gts: &Gts,
    mut stepper: Stepper,
    commands: &[Command],
    out: &mut K,
) -> Result<End, ReplayFault>
    requires sound { IsSound gts.now }
    requires same { stepper.system ≡ gts.now }
    requires starts { Start (net_of gts.now) stepper.values }
    requires no_step { stepper.below ≡ [] }
    requires firable { AreFirable gts.now commands.now }
    ensures { (system : System ℕ) → Views gts.now system
        → AnswersReplay (naming_of_parts gts.now) system (map (command_of gts.now) commands.now)
        (K.state out.old) (K.state out.new) result }
{
    let mut latest = at_start(alloc, gts.parts(), &stepper.values().values)?;
    started(out, gts, &stepper.values().values)?;
    for command in commands {
        match obey(alloc, gts, &mut stepper, &mut latest, *command, out)? {
            End::Done => {}
            End::Fault => return Ok(End::Fault),
        }
    }
    ended(out, stepper.steps())?;
    Ok(End::Done)
}
