//! Terms of two literals, and votes: terms that all have one literal or its opposite.

ghost use Rattle.std.specs.Prelude.{◌≡◌, ℕ, Bool, List, true, IfOk, IfSome};
ghost use Rattle.eq_core.specs.Values.{joint_at};
ghost use Rattle.eq_core.specs.Views.{gate_of};
ghost use Rattle.gate_sharing.specs.Absorbing.{needed_parts};
ghost use Rattle.gate_sharing.specs.Literals.{literal_of, literal_operands};
ghost use Rattle.gate_sharing.specs.Votes.{term_operands, IsBesideIn, AreSides, IsVoteBy};

use crate::literals::{Literal, for_joint, in_order, literal_for};
use ar_base::Memory;
use eq_core::Gate;
use std::alloc::Global;

/// Two literals that are both needed.
#[derive(Clone, Copy)]
pub(crate) struct Term {
    /// One.
    pub(crate) first: Literal,
    /// The other.
    pub(crate) second: Literal,
}

impl Term {
    // The other literal, where one is this.
    fn beside(self, literal: Literal) -> Option<Literal>
        ensures { IfSome result (λ other. IsBesideIn self (literal_of literal) (literal_of other)) }
    {
        if self.first == literal {
            Some(self.second)
        } else if self.second == literal {
            Some(self.first)
        } else {
            None
        }
    }
}

/// What is all needed for a gate of two operands, if it is one of And, or for its opposite, if it is one of Or.
pub(crate) fn term_of(gate: &Gate) -> Option<Term>
    ensures { IfSome result (λ term. term_operands term ≡ needed_parts (gate_of gate.now)) }
{
    let [first, second] = gate.operands.as_slice() else {
        return None;
    };
    let first = literal_for(for_joint(gate.joint, *first))?;
    let second = literal_for(for_joint(gate.joint, *second))?;
    Some(Term { first, second })
}

/// What is left of terms that all have one literal or its opposite.
#[derive(Drop)]
pub(crate) struct Sides {
    /// The opposites of what stands beside the literal.
    pub(crate) with: Vec<Literal>,
    /// The opposites of what stands beside its opposite.
    pub(crate) without: Vec<Literal>,
}

/// Terms that all have one literal or its opposite. None of them is true exactly where all of the side with the literal are,
/// if it is true, and all of the side without it, if it is not. One of the sides implies the other.
#[derive(Drop)]
pub(crate) struct Vote {
    /// The literal.
    pub(crate) test: Literal,
    /// The sides.
    pub(crate) sides: Sides,
    /// Whether the side without the literal implies the one with it; else it is the other way round.
    pub(crate) rises: bool,
}

/// The vote of the terms by this literal. None where a term has neither it nor its opposite, where all have the same of the
/// two, and where neither side is seen to imply the other.
pub(crate) fn vote_by(alloc: Global, test: Literal, terms: &[Term]) -> Result<Option<Vote>, Memory>
    ensures { IfOk result (λ found. IfSome found (λ vote. IsVoteBy test terms.now vote)) }
{
    let Some(sides) = split_by(alloc, test, terms)? else {
        return Ok(None);
    };
    if sides.with.is_empty() || sides.without.is_empty() {
        return Ok(None);
    }
    let rises = imply(alloc, &sides.without, &sides.with)?;
    let falls = imply(alloc, &sides.with, &sides.without)?;
    if !rises && !falls {
        return Ok(None);
    }
    Ok(Some(Vote { test, sides, rises }))
}

// The sides of the terms by this literal. None where a term has neither it nor its opposite.
fn split_by(alloc: Global, test: Literal, terms: &[Term]) -> Result<Option<Sides>, Memory>
    ensures { IfOk result (λ found. IfSome found
        (λ sides. AreSides (literal_of test) terms.now sides.with.items sides.without.items)) }
{
    let mut with = Vec::new(alloc);
    let mut without = Vec::new(alloc);
    for term in terms {
        if let Some(other) = term.beside(test) {
            with.push(other.negated())?;
        } else if let Some(other) = term.beside(test.negated()) {
            without.push(other.negated())?;
        } else {
            return Ok(None);
        }
    }
    Ok(Some(Sides { with, without }))
}

// Whether it is seen that all of those are true where all of these are: they are among them, or these are opposites in part.
fn imply(alloc: Global, these: &[Literal], those: &[Literal]) -> Result<bool, Memory>
    ensures { IfOk result (λ yes. yes ≡ true → (set : List ℕ) (values : List Bool)
        → joint_at true set values (literal_operands these.now) ≡ true
        → joint_at true set values (literal_operands those.now) ≡ true) }
{
    let Some(few) = in_order(alloc, these)? else {
        return Ok(true);
    };
    let mut all = Vec::from_slice(alloc, these)?;
    all.extend_from_slice(those)?;
    let Some(more) = in_order(alloc, &all)? else {
        return Ok(false);
    };
    Ok(few == more)
}
