//! Gates that are shared.

ghost use Rattle.std.specs.Prelude.{◌≡◌, ◌≤◌, ◌++◌, Bool, map, length, IfOk, IfSome};
ghost use Rattle.eq_core.specs.Ordered.{AreBelow, AreOrdered};
ghost use Rattle.eq_core.specs.Values.{signed};
ghost use Rattle.eq_core.specs.ValuesInside.{IsBelow};
ghost use Rattle.eq_core.specs.Views.{all_needed, gate_of, operand_of};
ghost use Rattle.gate_sharing.specs.Absorbing.{Absorbs, AddsBeside};
ghost use Rattle.gate_sharing.specs.Images.{with_sign};
ghost use Rattle.gate_sharing.specs.Literals.{literal_of, literal_operands, AreEnough};
ghost use Rattle.gate_sharing.specs.Sharing.{AddsGates, IsAllOf};
ghost use Rattle.gate_sharing.specs.Votes.{IsOfTerm};

use crate::absorbing::{is_over_one, left_beside};
use crate::literals::{Literal, Literals, for_joint, in_order};
use crate::terms::{Term, term_of};
use crate::unshared::Unshared;
use ar_base::{GateId, Memory};
use eq_core::{Gate, Joint, Operand};
use std::alloc::Global;
use std::collections::HashMap;
use std::marker::Model;

// The most literals that are simplified by one another.
const MOST_ABSORBED: usize = 8;

/// Gates so far, and for lists of literals the operand that is true where all of them are.
#[derive(Drop)]
pub(crate) struct Sharing {
    gates: Vec<Gate>,
    known: HashMap<Literals, Operand>,
    // How many steps for votes are left.
    steps: usize,
}

impl Model for Sharing {
    ghost use Rattle.std.specs.Prelude.{List, map};
    ghost use Rattle.eq_core.specs.Gates.{Gate as GateOf};
    ghost use Rattle.eq_core.specs.Views.{gate_of};
    ghost use Rattle.gate_sharing.specs.Known.{IsSoundSharing};

    ghost Value = { List GateOf };

    ghost view = { λ s. map gate_of s.gates.items };

    ghost invariant = { λ s. IsSoundSharing (map gate_of s.gates.items) s.known.entries };
}

impl Sharing {
    /// No gates, and so many steps for votes. Takes no memory.
    pub(crate) fn new(alloc: Global, steps: usize) -> Sharing
        ensures { length result ≡ 0 }
    {
        Sharing {
            gates: Vec::new(alloc),
            known: HashMap::new(alloc),
            steps,
        }
    }

    /// The gates, each over earlier ones.
    pub(crate) fn into_gates(self) -> Vec<Gate>
        ensures gates { map gate_of result.items ≡ self }
        ensures ordered { AreOrdered self }
    {
        let Sharing {
            gates,
            known: _,
            steps: _,
        } = self;
        gates
    }

    /// The operand that is true where all of the literals are. A new gate goes last; it has the literals in this order, or
    /// their opposites, whichever have fewer negations; where that is even, the opposites for Or. The error is want of memory,
    /// or of a number for a gate.
    pub(crate) fn all_of(
        &mut self,
        alloc: Global,
        joint: Joint,
        literals: &[Literal],
    ) -> Result<Operand, Unshared>
        requires { AreBelow (length self.old) (literal_operands literals.now) }
        ensures { AddsGates (literal_operands literals.now) self.old self.new result }
    {
        let Some(key) = in_order(alloc, literals)? else {
            return Ok(Operand::Never);
        };
        match key.all.as_slice() {
            [] => Ok(Operand::Always),
            [only] => Ok(only.operand()),
            _ => self.shared(alloc, joint, literals, key),
        }
    }

    /// The same of literals that are first simplified by one another, where they are few.
    pub(crate) fn simplest(
        &mut self,
        alloc: Global,
        joint: Joint,
        literals: &[Literal],
    ) -> Result<Operand, Unshared>
        requires { AreBelow (length self.old) (literal_operands literals.now) }
        ensures { AddsGates (literal_operands literals.now) self.old self.new result }
    {
        if literals.len() > MOST_ABSORBED || !self.meet(literals) {
            return self.all_of(alloc, joint, literals);
        }
        let Some(left) = self.absorbed(alloc, literals)? else {
            return Ok(Operand::Never);
        };
        self.all_of(alloc, joint, &left)
    }

    /// The operand that was kept for these literals.
    pub(crate) fn known_for(&self, key: &Literals) -> Option<Operand>
        ensures { IfSome result
            (λ known. IsAllOf self.now (operand_of known) (literal_operands key.now.all.items)) }
    {
        self.known.get(key).copied()
    }

    /// Keeps the operand for these literals.
    pub(crate) fn keep(&mut self, key: Literals, operand: Operand) -> Result<(), Unshared>
        requires { IsAllOf self.old (operand_of operand) (literal_operands key.all.items) }
        ensures { self.new ≡ self.old }
    {
        self.known.insert(key, operand)?;
        Ok(())
    }

    /// Takes so many steps of those that are left. False where fewer are left: then none are taken.
    pub(crate) fn spend(&mut self, steps: usize) -> bool
        ensures { self.new ≡ self.old }
    {
        if steps > self.steps {
            return false;
        }
        self.steps -= steps;
        true
    }

    /// The term that is true exactly where the literal is, if And is asked for, or where it is not, if Or is. None where the
    /// literal is not one of a gate of two operands that joins them so.
    pub(crate) fn term_for(&self, literal: Literal, whole: Joint) -> Option<Term>
        requires { IsBelow (length self.now) (literal_of literal) }
        ensures { IfSome result
            (λ term. IsOfTerm (all_needed whole) self.now (literal_of literal) term) }
    {
        let Literal::Gate(number, sign) = literal else {
            return None;
        };
        let gate = &self.gates[number as usize];
        if whole_joint(gate.joint, sign) != whole {
            return None;
        }
        term_of(gate)
    }

    // Whether one of them is of a gate over an event or a gate that another one has. Where none is, they stay as they are.
    fn meet(&self, literals: &[Literal]) -> bool
        requires { AreBelow (length self.now) (literal_operands literals.now) }
    {
        for literal in literals {
            if let Literal::Gate(number, _) = literal {
                if is_over_one(&self.gates[*number as usize], literals) {
                    return true;
                }
            }
        }
        false
    }

    // The literals, each as it is where all of the others are true. None where they are never all true.
    fn absorbed(
        &mut self,
        alloc: Global,
        literals: &[Literal],
    ) -> Result<Option<Vec<Literal>>, Unshared>
        requires { AreBelow (length self.old) (literal_operands literals.now) }
        ensures { Absorbs (literal_operands literals.now) self.old self.new result }
    {
        let mut kept = Vec::new(alloc);
        for (place, literal) in literals.iter().enumerate() {
            match self.beside(alloc, *literal, &kept, &literals[place + 1..])? {
                Operand::Always => {}
                Operand::Never => return Ok(None),
                Operand::Event(event, sign) => kept.push(Literal::Event(event.n, sign))?,
                Operand::Gate(gate, sign) => kept.push(Literal::Gate(gate.n, sign))?,
            }
        }
        Ok(Some(kept))
    }

    // An operand that has the literal's value wherever all of those before it and behind it are true.
    fn beside(
        &mut self,
        alloc: Global,
        literal: Literal,
        before: &[Literal],
        after: &[Literal],
    ) -> Result<Operand, Unshared>
        requires literal { IsBelow (length self.old) (literal_of literal) }
        ensures { AddsBeside (literal_operands (before.now ++ after.now)) (literal_of literal) self.old
            self.new result }
    {
        let Literal::Gate(number, sign) = literal else {
            return Ok(literal.operand());
        };
        let gate = &self.gates[number as usize];
        if !is_over_one(gate, before) && !is_over_one(gate, after) {
            return Ok(literal.operand());
        }
        let whole = whole_joint(gate.joint, sign);
        let parts = gate.operands.len();
        let Some(left) = left_beside(alloc, gate, before, after)? else {
            return Ok(for_joint(whole, Operand::Never));
        };
        if left.len() == parts {
            return Ok(literal.operand());
        }
        let all = self.all_of(alloc, whole, &left)?;
        Ok(for_joint(whole, all))
    }

    // The operand that is true where all of the literals are, of which two at least are left in order.
    fn shared(
        &mut self,
        alloc: Global,
        joint: Joint,
        literals: &[Literal],
        key: Literals,
    ) -> Result<Operand, Unshared>
        requires two { 2 ≤ length key.all.items }
        requires enough { AreEnough (literal_operands literals.now) (literal_operands key.all.items) }
        requires below { AreBelow (length self.old) (literal_operands literals.now) }
        ensures { AddsGates (literal_operands literals.now) self.old self.new result }
    {
        if let Some(known) = self.known_for(&key) {
            return Ok(known);
        }
        let made = gate(alloc, &mut self.gates, joint, shorter(literals, &key))?;
        self.keep(key, made)?;
        Ok(made)
    }
}

// And where a gate of this joint with this sign is true where all of its parts are, Or where it is not.
fn whole_joint(joint: Joint, sign: bool) -> Joint
    ensures { (b : Bool) → signed (all_needed result) b ≡ signed sign (signed (all_needed joint) b) }
{
    match joint {
        Joint::And if sign => Joint::And,
        Joint::Or if !sign => Joint::And,
        _ => Joint::Or,
    }
}

// The literals as they were written, or those in order where these are not as many.
fn shorter<'a>(literals: &'a [Literal], key: &'a Literals) -> &'a [Literal]
    requires two { 2 ≤ length key.now.all.items }
    requires enough { AreEnough (literal_operands literals.now) (literal_operands key.now.all.items) }
    ensures two { 2 ≤ length result.now }
    ensures enough { AreEnough (literal_operands literals.now) (literal_operands result.now) }
{
    if literals.len() == key.all.len() {
        literals
    } else {
        &key.all
    }
}

// A new gate for at least two literals.
fn gate(
    alloc: Global,
    gates: &mut Vec<Gate>,
    joint: Joint,
    literals: &[Literal],
) -> Result<Operand, Unshared>
    requires two { 2 ≤ length literals.now }
    requires below { AreBelow (length gates.old.items) (literal_operands literals.now) }
    requires ordered { AreOrdered (map gate_of gates.old.items) }
    ensures adds { AddsGates (literal_operands literals.now) (map gate_of gates.old.items)
        (map gate_of gates.new.items) result }
    ensures ordered { AreOrdered (map gate_of gates.new.items) }
{
    let count = gates.len();
    if count >= u32::MAX as usize {
        return Err(Unshared::Gates);
    }
    let number = GateId::new(count as u32);
    let joint = plainer(joint, literals);
    let operands = operands(alloc, joint, literals)?;
    gates.push(Gate { joint, operands })?;
    Ok(Operand::Gate(number, joint == Joint::And))
}

// And where more literals are plain than negated, Or where fewer are, else the joint that is given.
fn plainer(joint: Joint, literals: &[Literal]) -> Joint {
    let plain = literals.iter().filter(|literal| literal.is_plain()).count();
    let negations = literals
        .iter()
        .filter(|literal| !literal.is_plain())
        .count();
    if plain > negations {
        Joint::And
    } else if plain < negations {
        Joint::Or
    } else {
        joint
    }
}

// The literals as operands of an And, their opposites as those of an Or.
fn operands(alloc: Global, joint: Joint, literals: &[Literal]) -> Result<Vec<Operand>, Memory>
    ensures { IfOk result (λ os. map operand_of os.items
        ≡ map (λ l. with_sign (all_needed joint) (literal_of l)) literals.now) }
{
    let mut operands = Vec::new(alloc);
    for literal in literals {
        operands.push(for_joint(joint, literal.operand()))?;
    }
    Ok(operands)
}
