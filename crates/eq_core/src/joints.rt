//! Gates and how they are made.

ghost use Rattle.std.specs.Prelude.{◌≡◌, ◌<◌, ◌^◌, IfOk, nat_eq, map, length, []};
ghost use Rattle.std.specs.List.{list_any};
ghost use Rattle.eq_core.specs.Gates.{joined, closed_as};
ghost use Rattle.eq_core.specs.Ordered.{AreBelow, AreOrdered, JointsKeepOrder};
ghost use Rattle.eq_core.specs.Values.{operand_at, joint_at, values_at};
ghost use Rattle.eq_core.specs.ValuesInside.{IsBelow};
ghost use Rattle.ar_base.specs.NumbersInside.{numbers_of};
ghost use Rattle.eq_core.specs.Views.{all_needed, operand_of, gate_of, gates_of, made_of};

use ar_base::{EventId, GateId, Memory};
use std::alloc::Global;

/// How a gate joins its operands.
#[derive(Clone, Copy, PartialEq, Eq)]
pub enum Joint {
    /// All of them are needed.
    And,
    /// One of them is enough.
    Or,
}

/// What a gate is over, or what a whole table comes to.
#[derive(Clone, Copy, PartialEq, Eq)]
pub enum Operand {
    /// Always true.
    Always,
    /// Never true.
    Never,
    /// The event, true where it is in the set; where the bool is false, true where it is not.
    Event(EventId, bool),
    /// The gate's value; where the bool is false, the opposite.
    Gate(GateId, bool),
}

impl Operand {
    // Its value at the set, where the first gates have these values.
    fn value(self, set: &[EventId], before: &[bool]) -> bool
        requires { IsBelow (length before.now) (operand_of self) }
        ensures { result ≡ operand_at (numbers_of set.now) before.now (operand_of self) }
    {
        match self {
            Operand::Always => true,
            Operand::Never => false,
            Operand::Event(event, sign) => set.contains(&event) == sign,
            Operand::Gate(gate, sign) => before[gate.n as usize] == sign,
        }
    }
}

/// A gate over at least two operands, each an event or an earlier gate.
#[derive(Drop)]
pub struct Gate {
    /// How it joins them.
    pub joint: Joint,
    /// The operands.
    pub operands: Vec<Operand>,
}

impl Gate {
    // Its value at the set, where the gates before have these values.
    fn value(&self, set: &[EventId], before: &[bool]) -> bool
        requires { AreBelow (length before.now) (map operand_of self.now.operands.items) }
        ensures { result ≡ joint_at (all_needed self.now.joint) (numbers_of set.now) before.now
            (map operand_of self.now.operands.items) }
    {
        let decides = self.joint == Joint::Or;
        for operand in &self.operands {
            if operand.value(set, before) == decides {
                return decides;
            }
        }
        !decides
    }
}

/// A table of gates, and what is read from it.
#[derive(Drop)]
pub struct Equations {
    /// The gates, each over earlier ones.
    pub gates: Vec<Gate>,
    /// True at a set whose state has no flows.
    pub conflict: Operand,
    /// True at a set whose state gives the observer the wanted value, unless the conflict operand is.
    pub top: Operand,
}

impl Equations {
    /// The value of each gate at the set, in the order of the gates. The room has one place for each gate. Takes no
    /// memory.
    pub fn value(&self, set: &[EventId], room: &mut [bool])
        requires ordered { AreOrdered (gates_of self.now) }
        requires room { length room.old ≡ length self.now.gates.items }
        ensures { room.new ≡ values_at (numbers_of set.now) (gates_of self.now) }
    {
        for (n, gate) in self.gates.iter().enumerate() {
            room[n] = gate.value(set, &room[..n]);
        }
    }
}

/// All of the operands, or one of them; a new gate goes last. The error is want of memory.
pub fn join(
    alloc: Global,
    gates: &mut Vec<Gate>,
    joint: Joint,
    operands: &[Operand],
) -> Result<Operand, Memory>
    requires { length gates.old.items < 2 ^ 32 }
    ensures { IfOk result (λ o. made_of o gates.new.items ≡ joined (all_needed joint)
        (map gate_of gates.old.items) [] (map operand_of operands.now)) }
{
    let mut kept = Vec::new(alloc);
    for operand in operands {
        match operand {
            Operand::Always => {
                if joint == Joint::Or {
                    return Ok(Operand::Always);
                }
            }
            Operand::Never => {
                if joint == Joint::And {
                    return Ok(Operand::Never);
                }
            }
            Operand::Event(_, _) => kept.push(*operand)?,
            Operand::Gate(_, _) => kept.push(*operand)?,
        }
    }
    close(gates, joint, kept)
}

// What is left of the operands.
fn close(gates: &mut Vec<Gate>, joint: Joint, kept: Vec<Operand>) -> Result<Operand, Memory>
    requires { length gates.old.items < 2 ^ 32 }
    ensures { IfOk result (λ o. made_of o gates.new.items ≡ closed_as (all_needed joint)
        (map gate_of gates.old.items) (map operand_of kept.items)) }
{
    if kept.is_empty() {
        return Ok(match joint {
            Joint::And => Operand::Always,
            Joint::Or => Operand::Never,
        });
    }
    if kept.len() == 1 {
        return Ok(kept[0]);
    }
    let number = GateId::new(gates.len() as u32);
    gates.push(Gate {
        joint,
        operands: kept,
    })?;
    Ok(Operand::Gate(number, true))
}

/// What is made of ordered gates and operands that name no later gates is in order again, and the operand names no
/// later gate.
pub fn joined_in_order()
    ensures { JointsKeepOrder }
{}
