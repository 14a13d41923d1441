//! A whole table, gate by gate.

ghost use Rattle.std.specs.Prelude.{◌≡◌, ◌<◌, ◌||◌, map, length, slice_index_or, IfOk, IfSome, MatchOption, true, false};
ghost use Rattle.eq_core.specs.Ordered.{AreBelow, IsOrderedTable};
ghost use Rattle.eq_core.specs.ValuesInside.{IsBelow};
ghost use Rattle.eq_core.specs.Views.{all_needed, operand_of, table_of};
ghost use Rattle.gate_sharing.specs.Images.{image, needed_for, AddsImage};
ghost use Rattle.gate_sharing.specs.Literals.{literal_operands, AreEnough, AreNeverAll};
ghost use Rattle.gate_sharing.specs.Simplified.{HaveSameValues};

use crate::literals::{Literal, for_joint, negated};
use crate::sharing::Sharing;
use crate::unshared::Unshared;
use ar_base::Memory;
use eq_core::{Equations, Gate, Operand, cone};
use std::alloc::Global;

// How many steps votes may take for each gate of the table, all together: so time and memory are linear in its size.
const STEPS_PER_GATE: usize = 32;

// Through how many levels votes are in one another.
const MOST_LEVELS: usize = 512;

/// A table whose conflict and top operands have at every set the values of those of this one. Of its gates those on which
/// neither rests are left out. None where it would have more gates than there are numbers, 4,294,967,295. The error is want of
/// memory.
pub fn simplified(alloc: Global, equations: &Equations) -> Result<Option<Equations>, Memory>
    requires { IsOrderedTable (table_of equations.now) }
    ensures ordered { IfOk result (λ found. IfSome found (λ t. IsOrderedTable (table_of t))) }
    ensures same { IfOk result (λ found. IfSome found
        (λ t. HaveSameValues (table_of equations.now) (table_of t))) }
{
    match simplified_table(alloc, equations) {
        Ok(table) => Ok(Some(table)),
        Err(Unshared::Gates) => Ok(None),
        Err(Unshared::Memory(memory)) => Err(memory),
    }
}

// The same, where each gate gets a number.
fn simplified_table(alloc: Global, equations: &Equations) -> Result<Equations, Unshared>
    requires { IsOrderedTable (table_of equations.now) }
    ensures ordered { IfOk result (λ t. IsOrderedTable (table_of t)) }
    ensures same { IfOk result (λ t. HaveSameValues (table_of equations.now) (table_of t)) }
{
    let conflict = cone(alloc, &equations.gates, equations.conflict)?;
    let top = cone(alloc, &equations.gates, equations.top)?;
    let steps = equations.gates.len().saturating_mul(STEPS_PER_GATE);
    let mut sharing = Sharing::new(alloc, steps);
    let mut images = Vec::new(alloc);
    for (number, gate) in equations.gates.iter().enumerate() {
        let needed = is_marked(&conflict, &top, number);
        let image = next_image(alloc, &mut sharing, &images, gate, needed)?;
        images.push(image)?;
    }
    Ok(Equations {
        gates: sharing.into_gates(),
        conflict: image_of(&images, equations.conflict),
        top: image_of(&images, equations.top),
    })
}

// Whether one of the cones has the gate.
fn is_marked(conflict: &[bool], top: &[bool], number: usize) -> bool
    requires conflict { number < length conflict.now }
    requires top { number < length top.now }
    ensures { result ≡ (slice_index_or conflict.now number false || slice_index_or top.now number false) }
{
    conflict[number] || top[number]
}

// The operand for the next gate, where it is needed, else any.
fn next_image(
    alloc: Global,
    sharing: &mut Sharing,
    images: &[Operand],
    gate: &Gate,
    needed: bool,
) -> Result<Operand, Unshared>
    requires images { AreBelow (length images.now) (map operand_of gate.now.operands.items) }
    requires below { needed ≡ true → AreBelow (length sharing.old)
        (needed_for (all_needed gate.now.joint) (map operand_of images.now)
        (map operand_of gate.now.operands.items)) }
    ensures { AddsImage needed (all_needed gate.now.joint)
        (needed_for (all_needed gate.now.joint) (map operand_of images.now)
        (map operand_of gate.now.operands.items)) sharing.old sharing.new result }
{
    if !needed {
        return Ok(Operand::Never);
    }
    let Some(literals) = needed_literals(alloc, images, gate)? else {
        return Ok(for_joint(gate.joint, Operand::Never));
    };
    let all = sharing.by_votes(alloc, gate.joint, &literals, MOST_LEVELS)?;
    Ok(for_joint(gate.joint, all))
}

// The operand for one of the old table.
fn image_of(images: &[Operand], operand: Operand) -> Operand
    requires { IsBelow (length images.now) (operand_of operand) }
    ensures { operand_of result ≡ image (map operand_of images.now) (operand_of operand) }
{
    match operand {
        Operand::Gate(gate, sign) => {
            let image = images[gate.n as usize];
            if sign { image } else { negated(image) }
        }
        _ => operand,
    }
}

// The literals that are all needed for a gate of And, or for the opposite of one of Or. None where one is never true.
fn needed_literals(
    alloc: Global,
    images: &[Operand],
    gate: &Gate,
) -> Result<Option<Vec<Literal>>, Memory>
    requires { AreBelow (length images.now) (map operand_of gate.now.operands.items) }
    ensures { IfOk result (λ found. let os = needed_for (all_needed gate.now.joint)
        (map operand_of images.now) (map operand_of gate.now.operands.items) in
        MatchOption found (AreNeverAll os) (λ ls. AreEnough os (literal_operands ls.items))) }
{
    let mut literals = Vec::new(alloc);
    for operand in &gate.operands {
        match for_joint(gate.joint, image_of(images, *operand)) {
            Operand::Always => {}
            Operand::Never => return Ok(None),
            Operand::Event(event, sign) => literals.push(Literal::Event(event.n, sign))?,
            Operand::Gate(gate, sign) => literals.push(Literal::Gate(gate.n, sign))?,
        }
    }
    Ok(Some(literals))
}
