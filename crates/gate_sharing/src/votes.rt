//! Gates for votes, as `two or more of these`: terms that all have one literal or its opposite.

ghost use Rattle.std.specs.Prelude.{◌≡◌, ◌∷◌, [], length, true, IfOk, IfSome};
ghost use Rattle.eq_core.specs.Ordered.{AreBelow};
ghost use Rattle.eq_core.specs.ValuesInside.{IsBelow};
ghost use Rattle.eq_core.specs.Views.{operand_of};
ghost use Rattle.gate_sharing.specs.Literals.{literal_of, literal_operands};
ghost use Rattle.gate_sharing.specs.Sharing.{AddsGates};
ghost use Rattle.gate_sharing.specs.Votes.{AddsTerms, AreTermsOf, IsVoteOf, AddsEither, DecidesVote};

use crate::literals::{Literal, in_order, literals_for, negated, with_sign};
use crate::sharing::Sharing;
use crate::terms::{Term, Vote, vote_by};
use crate::unshared::Unshared;
use ar_base::Memory;
use eq_core::{Joint, Operand};
use std::alloc::Global;

impl Sharing {
    /// The operand that is true where all of the literals are. Where they are a vote, that is the opposite of `x and A, or B`,
    /// or that itself: x is the literal of the vote, and B implies A. A and B are made in the same way, through at most so
    /// many levels, while steps are left. In all other cases it is made as `simplest` makes it.
    pub(crate) fn by_votes(
        &mut self,
        alloc: Global,
        joint: Joint,
        literals: &[Literal],
        levels: usize,
    ) -> Result<Operand, Unshared>
        requires { AreBelow (length self.old) (literal_operands literals.now) }
        ensures { AddsGates (literal_operands literals.now) self.old self.new result }
    {
        let Some(vote) = self.vote(alloc, literals)? else {
            return self.simplest(alloc, joint, literals);
        };
        let Some(key) = in_order(alloc, literals)? else {
            return Ok(Operand::Never);
        };
        if let Some(known) = self.known_for(&key) {
            return Ok(known);
        }
        if levels == 0 || !self.spend(literals.len()) {
            return self.simplest(alloc, joint, literals);
        }
        let with = self.by_votes(alloc, joint, &vote.sides.with, levels - 1)?;
        let without = self.by_votes(alloc, joint, &vote.sides.without, levels - 1)?;
        let made = self.decide(alloc, &vote, with, without)?;
        self.keep(key, made)?;
        Ok(made)
    }

    // The operand of a vote, of the operands for its sides.
    fn decide(
        &mut self,
        alloc: Global,
        vote: &Vote,
        with: Operand,
        without: Operand,
    ) -> Result<Operand, Unshared>
        requires test { IsBelow (length self.old) (literal_of vote.now.test) }
        requires with { IsBelow (length self.old) (operand_of with) }
        requires without { IsBelow (length self.old) (operand_of without) }
        ensures { DecidesVote vote.now (operand_of with) (operand_of without) self.old self.new
            result }
    {
        let larger = with_sign(vote.rises, with);
        let smaller = with_sign(vote.rises, without);
        let either = self.either(alloc, vote.test, larger, smaller)?;
        Ok(with_sign(vote.rises, either))
    }

    // The operand that is true where the literal and the larger one are, and where the smaller one is.
    fn either(
        &mut self,
        alloc: Global,
        test: Literal,
        larger: Operand,
        smaller: Operand,
    ) -> Result<Operand, Unshared>
        requires test { IsBelow (length self.old) (literal_of test) }
        requires larger { IsBelow (length self.old) (operand_of larger) }
        requires smaller { IsBelow (length self.old) (operand_of smaller) }
        ensures { AddsEither (literal_of test) (operand_of larger) (operand_of smaller) self.old
            self.new result }
    {
        let both = self.both(alloc, Joint::And, test.operand(), larger)?;
        let neither = self.both(alloc, Joint::Or, negated(both), negated(smaller))?;
        Ok(negated(neither))
    }

    // The operand that is true where both are.
    fn both(
        &mut self,
        alloc: Global,
        joint: Joint,
        first: Operand,
        second: Operand,
    ) -> Result<Operand, Unshared>
        requires first { IsBelow (length self.old) (operand_of first) }
        requires second { IsBelow (length self.old) (operand_of second) }
        ensures { AddsGates (operand_of first ∷ operand_of second ∷ []) self.old self.new result }
    {
        let Some(literals) = literals_for(alloc, &[first, second])? else {
            return Ok(Operand::Never);
        };
        self.simplest(alloc, joint, &literals)
    }

    // The vote that these literals are, by a literal of the first term.
    fn vote(&self, alloc: Global, literals: &[Literal]) -> Result<Option<Vote>, Memory>
        requires { AreBelow (length self.now) (literal_operands literals.now) }
        ensures { IfOk result (λ found. IfSome found
            (λ vote. IsVoteOf self.now (literal_operands literals.now) vote)) }
    {
        let Some(terms) = self.terms(alloc, literals)? else {
            return Ok(None);
        };
        let Some(first) = terms.first().copied() else {
            return Ok(None);
        };
        if let Some(vote) = vote_by(alloc, first.second.plain(), &terms)? {
            return Ok(Some(vote));
        }
        vote_by(alloc, first.first.plain(), &terms)
    }

    // Terms of which none is true exactly where all of these literals are. None where one of the literals is neither the
    // opposite of a term nor of two terms.
    fn terms(&self, alloc: Global, literals: &[Literal]) -> Result<Option<Vec<Term>>, Memory>
        requires { AreBelow (length self.now) (literal_operands literals.now) }
        ensures { IfOk result (λ found. IfSome found
            (λ terms. AreTermsOf self.now (literal_operands literals.now) terms.items)) }
    {
        let mut terms = Vec::new(alloc);
        for literal in literals {
            if !self.add_terms(*literal, &mut terms)? {
                return Ok(None);
            }
        }
        Ok(Some(terms))
    }

    // Adds the term of which the literal is the opposite, or the two of which it says that neither is true. False where it is
    // no such literal.
    fn add_terms(&self, literal: Literal, terms: &mut Vec<Term>) -> Result<bool, Memory>
        requires { IsBelow (length self.now) (literal_of literal) }
        ensures { IfOk result (λ added. added ≡ true
            → AddsTerms self.now (literal_of literal) terms.old.items terms.new.items) }
    {
        if let Some(term) = self.term_for(literal, Joint::Or) {
            terms.push(term)?;
            return Ok(true);
        }
        let Some(parts) = self.term_for(literal, Joint::And) else {
            return Ok(false);
        };
        let Some(first) = self.term_for(parts.first, Joint::Or) else {
            return Ok(false);
        };
        let Some(second) = self.term_for(parts.second, Joint::Or) else {
            return Ok(false);
        };
        terms.push(first)?;
        terms.push(second)?;
        Ok(true)
    }
}
