//! The text of a table, written.

ghost use Rattle.std.specs.Prelude.{◌≡◌, ◌<◌, ◌^◌, map};
ghost use Rattle.ar_io.specs.Handing.{Writes};
ghost use Rattle.eq_core.specs.Gates as gates;
ghost use Rattle.eq_core.specs.Views.{all_needed, operand_of, gate_of, table_of};
ghost use Rattle.aralia_text.specs.Texts.{sign_text, operand_text, joint_text, operands_text, more_text, gate_lines, gate_name, equations_text};

use ar_base::Text;
use ar_io::{Sink, SinkFailed, text_at, write_count, write_text};
use eq_core::{Equations, Gate, Joint, Operand};

/// Writes the equations as text: a line for each gate, as `g1 := -e.a & e.b;`, then `conflict := ` and `top := ` with their
/// operands. Each event is written by its text, by number; past the last text an event is written by an empty one. Takes
/// no memory.
pub fn print<K: Sink>(equations: &Equations, events: &[Text], out: &mut K) -> Result<(), SinkFailed>
    ensures { Writes (K.state out.old) (K.state out.new)
        (equations_text events.now (table_of equations.now)) result }
{
    lines(out, events, &equations.gates)?;
    write_text(out, "conflict := ")?;
    operand(out, events, equations.conflict)?;
    write_text(out, ";\ntop := ")?;
    operand(out, events, equations.top)?;
    write_text(out, ";\n")
}

// The lines of the gates.
fn lines<K: Sink>(out: &mut K, events: &[Text], gates: &[Gate]) -> Result<(), SinkFailed>
    ensures { Writes (K.state out.old) (K.state out.new)
        (gate_lines events.now 0 (map gate_of gates.now)) result }
{
    for (n, gate) in gates.iter().enumerate() {
        name(out, n)?;
        write_text(out, " := ")?;
        operands(out, events, gate)?;
        write_text(out, ";\n")?;
    }
    Ok(())
}

// The operands of a gate.
fn operands<K: Sink>(out: &mut K, events: &[Text], gate: &Gate) -> Result<(), SinkFailed>
    ensures { Writes (K.state out.old) (K.state out.new)
        (operands_text events.now (all_needed gate.now.joint)
        (map operand_of gate.now.operands.items)) result }
{
    let Some((first, others)) = gate.operands.split_first() else {
        return Ok(());
    };
    operand(out, events, *first)?;
    more(out, events, gate.joint, others)
}

// Further operands, each with the sign that joins it to those before.
fn more<K: Sink>(
    out: &mut K,
    events: &[Text],
    joint: Joint,
    operands: &[Operand],
) -> Result<(), SinkFailed>
    ensures { Writes (K.state out.old) (K.state out.new)
        (more_text events.now (all_needed joint) (map operand_of operands.now)) result }
{
    for one in operands {
        write_text(out, between(joint))?;
        operand(out, events, *one)?;
    }
    Ok(())
}

// What stands between two operands.
pub fn between(joint: Joint) -> &'static str
    ensures { result.now ≡ joint_text (all_needed joint) }
{
    match joint {
        Joint::And => " & ",
        Joint::Or => " | ",
    }
}

// An operand.
fn operand<K: Sink>(out: &mut K, events: &[Text], operand: Operand) -> Result<(), SinkFailed>
    ensures { Writes (K.state out.old) (K.state out.new)
        (operand_text events.now (operand_of operand)) result }
{
    match operand {
        Operand::Always => write_text(out, "true"),
        Operand::Never => write_text(out, "false"),
        Operand::Event(event, sign) => {
            write_text(out, minus(sign))?;
            write_text(out, "e.")?;
            write_text(out, text_at(events, event.n))
        }
        Operand::Gate(gate, sign) => {
            write_text(out, minus(sign))?;
            name(out, gate.n as usize)
        }
    }
}

// Nothing, or `-` before what is negated.
fn minus(sign: bool) -> &'static str
    ensures { result.now ≡ sign_text sign }
{
    if sign { "" } else { "-" }
}

// The name of the gate of this number: numbers are written from 1.
fn name<K: Sink>(out: &mut K, n: usize) -> Result<(), SinkFailed>
    requires { n < 2 ^ 63 }
    ensures { Writes (K.state out.old) (K.state out.new) (gate_name n) result }
{
    write_text(out, "g")?;
    write_count(out, n + 1)
}
