//! The equations that a text says.

ghost use Rattle.std.specs.Prelude.{◌≡◌, ◌≤◌, ◌<◌, ◌^◌, length, map, [], IfOk, IfErr, MatchResult};
ghost use Rattle.ar_base.specs.Lists.{AreDifferent};
ghost use Rattle.ar_lexer.specs.Tokens.{place_after};
ghost use Rattle.eq_core.specs.Gates as gates;
ghost use Rattle.eq_core.specs.Views.{operand_of, gate_of, table_of};
ghost use Rattle.aralia_text.specs.Texts.{operand_text};
ghost use Rattle.aralia_text.specs.Readings.{IsTextOf, IsWrongPlace};
ghost use Rattle.aralia_text.specs.Fronts.{AreEventTexts, IsRead, IsStuck, PathStops, IsEnd, IsLastAt, AreLast, last_of, last_text, AreRead, HasNoGate, IsOnlyTable, IsNoTable};

use crate::fronts::{Stuck, begins_with, has_operand, literal, operand};
use crate::gates::{Stop, gate};
use ar_base::{Memory, Names, Place, Text};
use eq_core::{Equations, Gate, Operand};
use std::alloc::Global;

// An operand of one of the two last lines.
fn last_operand<'a>(rest: &'a [u8], gates: u32, names: &Names) -> Result<(Operand, &'a [u8]), Stuck>
    requires { AreEventTexts names.now }
    ensures found { IfOk result (λ r.
        IsRead (IsLastAt gates names.now) (operand_text names.now) PathStops rest.now (operand_of r.0)
        r.1.now) }
    ensures stuck { IfErr result (λ stuck.
        IsStuck (IsLastAt gates names.now) (operand_text names.now) PathStops rest.now stuck.left) }
{
    if begins_with(rest, b't') {
        let left = literal(rest, b"true")?;
        return Ok((Operand::Always, left));
    }
    if begins_with(rest, b'f') {
        let left = literal(rest, b"false")?;
        return Ok((Operand::Never, left));
    }
    operand(rest, gates, names)
}

// The two last lines, with nothing behind them: the conflict operand and the top operand.
fn last_lines(rest: &[u8], gates: u32, names: &Names) -> Result<(Operand, Operand), Stuck>
    requires { AreEventTexts names.now }
    ensures found { IfOk result (λ r.
        IsRead (AreLast gates names.now) (last_text names.now) IsEnd rest.now
        (last_of (operand_of r.0) (operand_of r.1)) []) }
    ensures stuck { IfErr result (λ stuck.
        IsStuck (AreLast gates names.now) (last_text names.now) IsEnd rest.now stuck.left) }
{
    let behind = literal(rest, b"conflict := ")?;
    let (conflict, left) = last_operand(behind, gates, names)?;
    let behind = literal(left, b";\ntop := ")?;
    let (top, left) = last_operand(behind, gates, names)?;
    let behind = literal(left, b";\n")?;
    if behind.is_empty() {
        return Ok((conflict, top));
    }
    Err(Stuck { left: behind.len() })
}

// The lines of the gates, and what stands behind them.
fn gate_lines<'a>(
    alloc: Global,
    text: &'a [u8],
    names: &Names,
) -> Result<(Vec<Gate>, &'a [u8]), Stop>
    requires events { AreEventTexts names.now }
    requires short { length text.now ≤ 2 ^ 31 }
    ensures found { IfOk result (λ r. AreRead names.now text.now (map gate_of r.0.items) r.1.now) }
    ensures end { IfOk result (λ r. HasNoGate r.1.now) }
    ensures stuck { IfErr result (λ stop. (stuck : _) → stop ≡ Stop.Stuck stuck
        → IsNoTable names.now text.now stuck.left) }
{
    let mut gates = Vec::new(alloc);
    let mut left = text;
    while begins_with(left, b'g') {
        if !has_operand(gates.len() as u32, names) {
            return Err(Stop::Stuck(Stuck { left: left.len() }));
        }
        let (one, behind) = gate(alloc, left, gates.len() as u32, names)?;
        gates.push(one)?;
        left = behind;
    }
    Ok((gates, left))
}

// The table of the text.
fn table(alloc: Global, text: &[u8], names: &Names) -> Result<Equations, Stop>
    requires events { AreEventTexts names.now }
    requires short { length text.now ≤ 2 ^ 31 }
    ensures found { IfOk result (λ q. IsOnlyTable names.now text.now (table_of q)) }
    ensures stuck { IfErr result (λ stop. (stuck : _) → stop ≡ Stop.Stuck stuck
        → IsNoTable names.now text.now stuck.left) }
{
    let (gates, left) = gate_lines(alloc, text, names)?;
    let (conflict, top) = last_lines(left, gates.len() as u32, names)?;
    Ok(Equations {
        gates,
        conflict,
        top,
    })
}

// The texts of the events as a table.
fn names_of(alloc: Global, events: &[Text]) -> Result<Names, Memory>
    requires different { AreDifferent events.now }
    requires few { length events.now < 2 ^ 32 }
    ensures { IfOk result (λ names. names ≡ events.now) }
{
    let mut names = Names::new(alloc);
    for text in events {
        names.intern(text.as_str())?;
    }
    Ok(names)
}

// The place behind these bytes.
fn place_after(before: &[u8]) -> Place
    requires { length before.now ≤ 2 ^ 31 }
    ensures { result ≡ place_after before.now }
{
    let mut place = Place { line: 1, column: 1 };
    for byte in before {
        if *byte == b'\n' {
            place.line += 1;
            place.column = 1;
        } else {
            place.column += 1;
        }
    }
    place
}

/// Why a text is that of no equations.
#[derive(Clone, Copy)]
pub enum AraliaFault {
    /// It is the text of no table: no text of a table goes on with the byte that stands here, or the text ends here and
    /// each that begins with it is longer.
    Syntax(Place),
    /// Memory was refused.
    Memory,
}

impl From<Memory> for AraliaFault {
    ghost use Rattle.std.specs.Prelude.{◌≡◌};
    ghost use Rattle.aralia_text.specs.declared.reading.AraliaFault.TheVariants.{Memory};

    ghost from_gives = { λ _ e. e ≡ Memory };

    fn from(_memory: Memory) -> Self {
        AraliaFault::Memory
    }
}

/// The equations that the text says: a text that `print` writes for gates in order and events with texts of letters,
/// digits, `_` and `.`, spelled exactly so.
///
/// # Errors
/// `Syntax` exactly where the text is that of no equations, with the place of the first byte with which no text of
/// equations goes on, or of the end of the text where only that is wrong. `Memory` where memory was refused.
pub fn read(alloc: Global, text: &[u8], events: &[Text]) -> Result<Equations, AraliaFault>
    requires short { length text.now ≤ 2 ^ 31 }
    requires different { AreDifferent events.now }
    requires few { length events.now < 2 ^ 32 }
    ensures found { IfOk result (λ q. IsTextOf events.now text.now (table_of q)) }
    ensures refused { IfErr result (λ fault. (place : _) → fault ≡ AraliaFault.Syntax place
        → (table : gates.Table) → IsTextOf events.now text.now table → ⊥) }
    ensures place { IfErr result (λ fault. (place : _) → fault ≡ AraliaFault.Syntax place
        → IsWrongPlace events.now text.now place) }

    // Nothing else is said of a text that is that of a table.
    ensures only { (table : gates.Table) → IsTextOf events.now text.now table
        → MatchResult result (λ q. table_of q ≡ table) (λ fault. fault ≡ AraliaFault.Memory) }
{
    let names = names_of(alloc, events)?;
    match table(alloc, text, &names) {
        Ok(equations) => Ok(equations),
        Err(Stop::Stuck(stuck)) => Err(AraliaFault::Syntax(place_after(
            &text[..text.len() - stuck.left],
        ))),
        Err(Stop::Memory) => Err(AraliaFault::Memory),
    }
}
