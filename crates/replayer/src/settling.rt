//! Where runs stand at their end.

ghost use Rattle.std.specs.Prelude.{◌≡◌, ℕ, List, [], map, IfOk, IfSome};
ghost use Rattle.ar_meaning.specs.Runs.{Start, Command as RunCommand};
ghost use Rattle.ar_meaning.specs.Systems.{System};
ghost use Rattle.gts_core.specs.Readings.{IsTotal};
ghost use Rattle.gts_core.specs.Sound.{IsSound};
ghost use Rattle.gts_core.specs.View.{Views, net_of};
ghost use Rattle.gts_flatten.specs.Flat.{naming_of_parts};
ghost use Rattle.job_inputs.specs.Flat.{command_of, AreFirable, IsWayOfSystem};
ghost use Rattle.replayer.specs.SettlesInside.{AnswersSettle};
ghost use Rattle.replayer.specs.Settling.{AnswersCommand};
ghost use Rattle.stepper.specs.Steps.{IsStartFault};

use crate::ends::{End, ReplayFault};
use crate::obeying::refuse;
use crate::trace::{no_step, not_started};
use ar_base::Memory;
use ar_io::Sink;
use domains::Value;
use flow_propagate::PropagateFault;
use gts_core::{Gts, Valuation};
use job_inputs::Command;
use std::alloc::Global;
use stepper::{NoStep, Stepper};

/// Runs the commands on the system. Where the run does not end in a fault it gives the last standing valuation, and nothing
/// is written. None exactly where the run ends in a fault, whose line alone is then written.
pub fn settle<K: Sink>(
    alloc: Global,
    gts: &Gts,
    commands: &[Command],
    out: &mut K,
) -> Result<Option<Valuation>, ReplayFault>
    requires { AreFirable gts.now commands.now }
    ensures answers { (system : System ℕ) → Views gts.now system
        → AnswersSettle (naming_of_parts gts.now) system (map (command_of gts.now) commands.now)
        (K.state out.old) (K.state out.new) result }
    ensures total { IfOk result (λ found. IfSome found (λ t. IsTotal gts.now t.values.items)) }
{
    // The parts are sound, and so each way that is fired has an answer.
    let _sound_parts = gts.parts();
    match Stepper::start(alloc, gts) {
        Ok(stepper) => run(alloc, gts, stepper, commands, out),
        Err(fault) => unstarted(gts, fault, out),
    }
}

// Tells why the run does not start.
fn unstarted<K: Sink>(
    gts: &Gts,
    fault: PropagateFault,
    out: &mut K,
) -> Result<Option<Valuation>, ReplayFault>
    requires sound { IsSound gts.now }
    requires fault { IsStartFault (net_of gts.now) fault }
    ensures answers { (system : System ℕ) → Views gts.now system → (commands : List RunCommand)
        → AnswersSettle (naming_of_parts gts.now) system commands (K.state out.old)
        (K.state out.new) result }
    ensures total { IfOk result (λ found. IfSome found (λ t. IsTotal gts.now t.values.items)) }
{
    match fault {
        PropagateFault::Flow(flow) => {
            not_started(out, gts, flow)?;
            Ok(None)
        }
        PropagateFault::Memory => Err(ReplayFault::Memory),
    }
}

// Runs the commands from the start.
fn run<K: Sink>(
    alloc: Global,
    gts: &Gts,
    mut stepper: Stepper,
    commands: &[Command],
    out: &mut K,
) -> Result<Option<Valuation>, ReplayFault>
    requires sound { IsSound gts.now }
    requires same { stepper.system ≡ gts.now }
    requires starts { Start (net_of gts.now) stepper.values }
    requires no_step { stepper.below ≡ [] }
    requires firable { AreFirable gts.now commands.now }
    ensures answers { (system : System ℕ) → Views gts.now system
        → AnswersSettle (naming_of_parts gts.now) system (map (command_of gts.now) commands.now)
        (K.state out.old) (K.state out.new) result }
    ensures total { IfOk result (λ found. IfSome found (λ t. IsTotal gts.now t.values.items)) }
{
    for command in commands {
        match take(gts, &mut stepper, *command, out)? {
            End::Done => {}
            End::Fault => return Ok(None),
        }
    }
    let values = copied(alloc, &stepper.values().values)?;
    Ok(Some(values))
}

// The same valuation.
fn copied(alloc: Global, values: &[Value]) -> Result<Valuation, Memory>
    ensures { IfOk result (λ t. t.values.items ≡ values.now) }
{
    let values = Vec::from_slice(alloc, values)?;
    Ok(Valuation { values })
}

// Takes a command, and writes nothing but the line of a fault.
fn take<K: Sink>(
    gts: &Gts,
    stepper: &mut Stepper,
    command: Command,
    out: &mut K,
) -> Result<End, ReplayFault>
    requires sound { IsSound gts.now }
    requires same { stepper.old.system ≡ gts.now }
    requires firable { IsWayOfSystem gts.now command }
    ensures system { stepper.new.system ≡ stepper.old.system }
    ensures answers { (system : System ℕ) → Views gts.now system
        → AnswersCommand (naming_of_parts gts.now) system stepper.old stepper.new
        (command_of gts.now command) (K.state out.old) (K.state out.new) result }
{
    match command {
        Command::Fire(way) => match stepper.fire(way) {
            Ok(_) => Ok(End::Done),
            Err(fault) => refuse(gts, way, fault, out),
        },
        Command::Back => match stepper.back() {
            Ok(_) => Ok(End::Done),
            Err(NoStep {}) => {
                no_step(out)?;
                Ok(End::Fault)
            }
        },
        Command::Show => Ok(End::Done),
        Command::Enabled => Ok(End::Done),
    }
}
