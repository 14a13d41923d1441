//! Literals, and lists of them that are all needed.

ghost use Rattle.std.specs.Prelude.{◌≡◌, ℕ, map, IfOk, IfSome, MatchOption};
ghost use Rattle.eq_core.specs.Gates.{opposite};
ghost use Rattle.eq_core.specs.ValuesInside.{IsBelow};
ghost use Rattle.eq_core.specs.Views.{all_needed, operand_of};
ghost use Rattle.gate_sharing.specs.Images.{with_sign};
ghost use Rattle.gate_sharing.specs.Literals.{literal_of, literal_operands, AreEnough, AreNeverAll};

use ar_base::{EventId, GateId, Memory};
use eq_core::{Joint, Operand};
use std::alloc::Global;

/// An event or a gate, by number; where the bool is false, its opposite.
#[derive(Clone, Copy, PartialEq, Eq, PartialOrd, Ord, Hash)]
pub(crate) enum Literal {
    /// The event.
    Event(u32, bool),
    /// The gate.
    Gate(u32, bool),
}

impl Literal {
    /// Its opposite.
    pub(crate) fn negated(self) -> Literal
        ensures { literal_of result ≡ opposite (literal_of self) }
    {
        match self {
            Literal::Event(event, sign) => Literal::Event(event, !sign),
            Literal::Gate(gate, sign) => Literal::Gate(gate, !sign),
        }
    }

    /// Itself or its opposite, whichever is no negation.
    pub(crate) fn plain(self) -> Literal
        ensures { (n : ℕ) → IsBelow n (literal_of self) → IsBelow n (literal_of result) }
    {
        match self {
            Literal::Event(event, _) => Literal::Event(event, true),
            Literal::Gate(gate, _) => Literal::Gate(gate, true),
        }
    }

    /// Whether it is no negation.
    pub(crate) fn is_plain(self) -> bool {
        let (Literal::Event(_, sign) | Literal::Gate(_, sign)) = self;
        sign
    }

    /// The literal as an operand.
    pub(crate) fn operand(self) -> Operand
        ensures { operand_of result ≡ literal_of self }
    {
        match self {
            Literal::Event(event, sign) => Operand::Event(EventId::new(event), sign),
            Literal::Gate(gate, sign) => Operand::Gate(GateId::new(gate), sign),
        }
    }
}

/// The operand's opposite.
pub(crate) fn negated(operand: Operand) -> Operand
    ensures { operand_of result ≡ opposite (operand_of operand) }
{
    match operand {
        Operand::Always => Operand::Never,
        Operand::Never => Operand::Always,
        Operand::Event(event, sign) => Operand::Event(event, !sign),
        Operand::Gate(gate, sign) => Operand::Gate(gate, !sign),
    }
}

/// The operand, or its opposite where the sign is false.
pub(crate) fn with_sign(sign: bool, operand: Operand) -> Operand
    ensures { operand_of result ≡ with_sign sign (operand_of operand) }
{
    if sign { operand } else { negated(operand) }
}

/// The operand as a literal. None for a constant.
pub(crate) fn literal_for(operand: Operand) -> Option<Literal>
    ensures { IfSome result (λ literal. literal_of literal ≡ operand_of operand) }
{
    match operand {
        Operand::Always => None,
        Operand::Never => None,
        Operand::Event(event, sign) => Some(Literal::Event(event.n, sign)),
        Operand::Gate(gate, sign) => Some(Literal::Gate(gate.n, sign)),
    }
}

/// Literals that are all true exactly where all of the operands are. None where one is never true.
pub(crate) fn literals_for(
    alloc: Global,
    operands: &[Operand],
) -> Result<Option<Vec<Literal>>, Memory>
    ensures { IfOk result (λ found. MatchOption found (AreNeverAll (map operand_of operands.now))
        (λ ls. AreEnough (map operand_of operands.now) (literal_operands ls.items))) }
{
    let mut literals = Vec::new(alloc);
    for operand in operands {
        match operand {
            Operand::Always => {}
            Operand::Never => return Ok(None),
            Operand::Event(event, sign) => literals.push(Literal::Event(event.n, *sign))?,
            Operand::Gate(gate, sign) => literals.push(Literal::Gate(gate.n, *sign))?,
        }
    }
    Ok(Some(literals))
}

/// The operand for And, its opposite for Or: Or is the opposite of And over opposites.
pub(crate) fn for_joint(joint: Joint, operand: Operand) -> Operand
    ensures { operand_of result ≡ with_sign (all_needed joint) (operand_of operand) }
{
    match joint {
        Joint::And => operand,
        Joint::Or => negated(operand),
    }
}

/// Different literals in order, no two of them opposites.
#[derive(PartialEq, Eq, Hash, Drop)]
pub(crate) struct Literals {
    /// The literals.
    pub(crate) all: Vec<Literal>,
}

/// The same literals in order, each once. None where two of them are opposites, so that not all of them can be true.
pub(crate) fn in_order(alloc: Global, literals: &[Literal]) -> Result<Option<Literals>, Memory>
    ensures { IfOk result (λ found. MatchOption found (AreNeverAll (literal_operands literals.now))
        (λ key. AreEnough (literal_operands literals.now) (literal_operands key.all.items))) }
{
    let mut sorted = Vec::from_slice(alloc, literals)?;
    sorted.sort()?;
    distinct(alloc, &sorted)
}

// Without those that are equal to the one before. None where one is its opposite.
fn distinct(alloc: Global, sorted: &[Literal]) -> Result<Option<Literals>, Memory>
    ensures { IfOk result (λ found. MatchOption found (AreNeverAll (literal_operands sorted.now))
        (λ key. AreEnough (literal_operands sorted.now) (literal_operands key.all.items))) }
{
    let mut all: Vec<Literal> = Vec::new(alloc);
    for literal in sorted {
        if let Some(last) = all.last().copied() {
            if last == *literal {
                continue;
            }
            if last == literal.negated() {
                return Ok(None);
            }
        }
        all.push(*literal)?;
    }
    Ok(Some(Literals { all }))
}
