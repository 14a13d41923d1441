//! What stands at the front of a text: a fixed text, an event's path, a gate's number, an operand.

ghost use Rattle.std.specs.Prelude.{◌≡◌, ◌≤◌, ◌<◌, ◌++◌, ℕ, true, false, length, IfOk, IfErr, IfSome, IfNone};
ghost use Rattle.std.specs.List.{prefix_len};
ghost use Rattle.eq_core.specs.Views.{operand_of};
ghost use Rattle.aralia_text.specs.Texts.{sign_text, operand_text, gate_name};
ghost use Rattle.aralia_text.specs.Readings.{is_path_byte};
ghost use Rattle.aralia_text.specs.Fronts.{AreEventTexts, IsRead, IsStuck, IsStuckIn, AreCommon, IsPathOf, event_text, IsEventPart, IsBelowGate, IsNumberWith, AreDigits, IsOperandAt, HasOperand, HasNoMinus, PathStops, begins_with};

use ar_base::{EventId, GateId, NameId, Names};
use eq_core::Operand;

// What is sought does not stand at the front.
#[derive(Clone, Copy)]
pub struct Stuck {
    // How many bytes are left from the first one with which nothing that is sought goes on.
    pub left: usize,
}

// Whether the byte stands first.
pub fn begins_with(rest: &[u8], byte: u8) -> bool
    ensures { result ≡ begins_with byte rest.now }
{
    match rest.first() {
        Some(first) => *first == byte,
        None => false,
    }
}

// A letter, a digit, `_` or `.`.
fn is_path_byte(b: u8) -> bool
    ensures { result ≡ is_path_byte b }
{
    b.is_ascii_alphabetic() || b.is_ascii_digit() || b == b'_' || b == b'.'
}

// How many bytes at the front may belong to a path.
fn path_len(bytes: &[u8]) -> usize
    ensures value { result ≡ prefix_len is_path_byte bytes.now }
    ensures within { result ≤ length bytes.now }
{
    let mut n = 0;
    while n < bytes.len() && is_path_byte(bytes[n]) {
        n += 1;
    }
    n
}

// How many bytes at the front of both are the same.
fn common(a: &[u8], b: &[u8]) -> usize
    ensures { AreCommon a.now b.now result }
{
    let mut n = 0;
    while n < a.len() && n < b.len() && a[n] == b[n] {
        n += 1;
    }
    n
}

// What stands behind this text.
pub fn literal<'a>(rest: &'a [u8], text: &[u8]) -> Result<&'a [u8], Stuck>
    ensures found { IfOk result (λ left. rest.now ≡ text.now ++ left.now) }
    ensures stuck { IfErr result (λ stuck. IsStuckIn text.now rest.now stuck.left) }
{
    match rest.strip_prefix(text) {
        Some(left) => Ok(left),
        None => Err(Stuck {
            left: rest.len() - common(rest, text),
        }),
    }
}

// How many bytes at the front are a first part of the name of an event.
fn event_part(rest: &[u8], names: &Names) -> usize
    requires { AreEventTexts names.now }
    ensures { IsEventPart names.now rest.now result }
{
    let mut most: usize = 0;
    let mut n = 0;
    while let Some(path) = names.get(NameId::new(n)) {
        let bytes = path.as_bytes();
        let run = path_len(bytes);
        // a text that is no path is the name of no event
        if run == bytes.len() {
            let same = match literal(rest, b"e.") {
                Ok(behind) => 2 + common(behind, bytes),
                Err(_) => common(rest, b"e."),
            };
            most = most.max(same);
        }
        n += 1;
    }
    most
}

// The event at the front: `e.` and its path, the longest run of its bytes.
fn event<'a>(rest: &'a [u8], names: &Names) -> Result<(EventId, &'a [u8]), Stuck>
    requires { AreEventTexts names.now }
    ensures found { IfOk result (λ r.
        IsRead (IsPathOf names.now) (event_text names.now) PathStops rest.now r.0.n r.1.now) }
    ensures stuck { IfErr result (λ stuck.
        IsStuck (IsPathOf names.now) (event_text names.now) PathStops rest.now stuck.left) }
{
    if let Ok(behind) = literal(rest, b"e.") {
        let (run, left) = behind.split_at(path_len(behind));
        if let Some(name) = names.find_bytes(run) {
            return Ok((EventId::new(name.n), left));
        }
    }
    Err(Stuck {
        left: rest.len() - event_part(rest, names),
    })
}

// The number with this digit behind it, where it is above 0 and at most so great.
fn number_with(value: u32, byte: u8, gates: u32) -> Option<u32>
    ensures found { IfSome result (λ more. IsNumberWith gates value byte more) }
    ensures none { IfNone result ((more : ℕ) → IsNumberWith gates value byte more → ⊥) }
{
    if byte < b'0' || byte > b'9' {
        return None;
    }
    let more = value as u64 * 10 + (byte - b'0') as u64;
    if more == 0 || more > gates as u64 {
        return None;
    }
    Some(more as u32)
}

// The number at the front and how many digits write it.
fn digits(rest: &[u8], gates: u32) -> (u32, usize)
    ensures { AreDigits gates rest.now result.0 result.1 }
{
    let mut value = 0;
    let mut n = 0;
    while n < rest.len() {
        match number_with(value, rest[n], gates) {
            Some(more) => value = more,
            None => return (value, n),
        }
        n += 1;
    }
    (value, n)
}

// One of so many gates: `g` and its number, from 1.
fn gate<'a>(rest: &'a [u8], gates: u32) -> Result<(GateId, &'a [u8]), Stuck>
    ensures found { IfOk result (λ r.
        IsRead (IsBelowGate gates) gate_name PathStops rest.now r.0.n r.1.now) }
    ensures stuck { IfErr result (λ stuck.
        IsStuck (IsBelowGate gates) gate_name PathStops rest.now stuck.left) }
{
    if gates == 0 {
        return Err(Stuck { left: rest.len() });
    }
    let behind = literal(rest, b"g")?;
    let (value, n) = digits(behind, gates);
    let left = behind.split_at(n).1;
    // a number behind which a path goes on is none
    let run = path_len(left);
    if n == 0 || run > 0 {
        return Err(Stuck { left: left.len() });
    }
    Ok((GateId::new(value - 1), left))
}

// Whether no `-` stands at the front, and what stands behind it.
fn sign(rest: &[u8]) -> (bool, &[u8])
    ensures joined { rest.now ≡ sign_text result.0 ++ result.1.now }
    ensures plain { result.0 ≡ true → HasNoMinus rest.now }
{
    match literal(rest, b"-") {
        Ok(left) => (false, left),
        Err(_) => (true, rest),
    }
}

// Whether there is an operand for a gate behind so many others.
pub fn has_operand(gates: u32, names: &Names) -> bool
    requires { AreEventTexts names.now }
    ensures yes { result ≡ true → HasOperand gates names.now }
    ensures no { result ≡ false → HasOperand gates names.now → ⊥ }
{
    gates > 0 || event_part(b"e", names) > 0
}

// An operand that is an event or one of so many gates, where there is one.
fn signed<'a>(rest: &'a [u8], gates: u32, names: &Names) -> Result<(Operand, &'a [u8]), Stuck>
    requires { AreEventTexts names.now }
    ensures found { IfOk result (λ r.
        IsRead (IsOperandAt gates names.now) (operand_text names.now) PathStops rest.now
        (operand_of r.0) r.1.now) }
    ensures stuck { IfErr result (λ stuck. HasOperand gates names.now
        → IsStuck (IsOperandAt gates names.now) (operand_text names.now) PathStops rest.now
        stuck.left) }
{
    let (sign, named) = sign(rest);
    if begins_with(named, b'g') {
        let (gate, left) = gate(named, gates)?;
        return Ok((Operand::Gate(gate, sign), left));
    }
    let (event, left) = event(named, names)?;
    Ok((Operand::Event(event, sign), left))
}

// An operand that is an event or one of so many gates.
pub fn operand<'a>(rest: &'a [u8], gates: u32, names: &Names) -> Result<(Operand, &'a [u8]), Stuck>
    requires { AreEventTexts names.now }
    ensures found { IfOk result (λ r.
        IsRead (IsOperandAt gates names.now) (operand_text names.now) PathStops rest.now
        (operand_of r.0) r.1.now) }
    ensures stuck { IfErr result (λ stuck.
        IsStuck (IsOperandAt gates names.now) (operand_text names.now) PathStops rest.now stuck.left) }
{
    match signed(rest, gates, names) {
        Ok(read) => Ok(read),
        Err(stuck) => {
            if has_operand(gates, names) {
                return Err(stuck);
            }
            Err(Stuck { left: rest.len() })
        }
    }
}
