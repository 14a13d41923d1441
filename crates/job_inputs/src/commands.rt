//! The commands of a script.

ghost use Rattle.std.specs.Prelude.{◌≤◌, length, map, IfErr, OnOk};
ghost use Rattle.ar_base.specs.Counts.{limit_of};
ghost use Rattle.ar_base.specs.declared.counts.Count.TheVariants.{ScriptBytes};
ghost use Rattle.gts_flatten.specs.Elaborating.{Elaborated};
ghost use Rattle.job_inputs.specs.Flat.{command_of, AreFirable, IsOfTree, AnswersScript};
ghost use Rattle.job_inputs.specs.Reads.{AddsCommands, IsBadLine};

use crate::faults::ScriptFault;
use crate::lines::{Line, first_line, line_of};
use crate::script_labels::way_named;
use ar_base::WayId;
use gts_core::Gts;
use hierarchy::Tree;
use std::alloc::Global;

/// A command of a script.
#[derive(Clone, Copy)]
pub enum Command {
    /// Fires a way.
    Fire(WayId),
    /// Takes the last standing step back.
    Back,
    /// Shows all variables and observers.
    Show,
    /// Lists the visible ways that can fire.
    Enabled,
}

/// The commands of the lines of a script on the flat system of a tree, or the first line that is bad.
pub fn read_script(
    alloc: Global,
    tree: &Tree,
    gts: &Gts,
    text: &[u8],
) -> Result<Vec<Command>, ScriptFault>
    requires tree { (x : Elaborated) × IsOfTree x tree.now gts.now }
    requires short { length text.now ≤ limit_of ScriptBytes }
    ensures { (x : Elaborated) → IsOfTree x tree.now gts.now
        → AnswersScript x gts.now text.now result }
{
    let mut commands = Vec::new(alloc);
    let mut rest = Some(text);
    let mut number = 1u32;
    while let Some(bytes) = rest {
        let (line, after) = first_line(bytes);
        add_line(alloc, &mut commands, tree, gts, line, number)?;
        rest = after;
        number += 1;
    }
    Ok(commands)
}

// Adds the command of the line of this number, if it has one.
fn add_line(
    alloc: Global,
    commands: &mut Vec<Command>,
    tree: &Tree,
    gts: &Gts,
    line: &[u8],
    number: u32,
) -> Result<(), ScriptFault>
    requires { (x : Elaborated) × IsOfTree x tree.now gts.now }
    ensures added { (x : Elaborated) → IsOfTree x tree.now gts.now
        → OnOk result (AddsCommands x line.now (map (command_of gts.now) commands.old.items)
        (map (command_of gts.now) commands.new.items)) }
    ensures firable { (x : Elaborated) → IsOfTree x tree.now gts.now
        → AreFirable gts.now commands.old.items
        → OnOk result (AreFirable gts.now commands.new.items) }
    ensures bad { (x : Elaborated) → IsOfTree x tree.now gts.now
        → IfErr result (λ fault. IsBadLine x line.now number fault) }
{
    let command = match line_of(line) {
        Line::Skipped => return Ok(()),
        Line::NoCommand => return Err(ScriptFault::Line(number)),
        Line::Fires(label) => Command::Fire(way_named(alloc, tree, gts, label, number)?),
        Line::GoesBack => Command::Back,
        Line::Shows => Command::Show,
        Line::ListsEnabled => Command::Enabled,
    };
    commands.push(command)?;
    Ok(())
}
