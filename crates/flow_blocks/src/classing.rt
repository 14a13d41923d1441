//! The classes of mutual dependence, by their least members.

ghost use Rattle.std.specs.Prelude.{◌≡◌, ◌≢◌, ℕ, ◌+◌, ◌<◌, ◌≤◌, List, [], ◌∷◌, ◌↔◌, IsTrue, IfOk, length, slice_get};
ghost use Rattle.ar_base.specs.Lists.{Stands, IsOneOf};
ghost use Rattle.flow_blocks.specs.Blocks.{Together, IsClass};
ghost use Rattle.flow_blocks.specs.Bits.{HasBit, AreRows, AreAllDependences};
ghost use Rattle.ar_base.specs.Sets.{Ascends};
ghost use Rattle.flow_blocks.specs.Table.{members_of, IsClassTable, IsPartTable, IsSelection};
ghost use Rattle.flow_blocks.specs.Slots.{AreSlots};

use crate::dependences::Block;
use crate::slots::{slot_of, slots};
use ar_base::Memory;
use lane_rows::has;
use std::alloc::Global;

/// The classes in the order of their least members, and the class of each number.
#[derive(Drop)]
pub(crate) struct ClassTable {
    pub(crate) blocks: Vec<Block>,
    pub(crate) class_of: Vec<u32>,
}

/// The number of no class.
const NONE: u32 = u32::MAX;

/// The classes of the numbers whose dependences have these rows.
pub(crate) fn classes(alloc: Global, count: u32, rows: &[Vec<u64>]) -> Result<ClassTable, Memory>
    requires { AreRows count rows.now }
    ensures { (uses : List (ℕ × ℕ)) → AreAllDependences count uses rows.now
        → IfOk result (λ t. IsClassTable count uses (members_of t.blocks.items) t.class_of.items) }
{
    let slots = slots(alloc, count, rows)?;
    let class_of = vec![in alloc; NONE; count as usize]?;
    let mut table = ClassTable {
        blocks: Vec::new(alloc),
        class_of,
    };
    for number in 0..count {
        look_at(alloc, count, rows, &slots, number, &mut table)?;
    }
    Ok(table)
}

/// Adds the class of a number, where it was not found yet.
fn look_at(
    alloc: Global,
    count: u32,
    rows: &[Vec<u64>],
    slots: &[Vec<u32>],
    number: u32,
    table: &mut ClassTable,
) -> Result<(), Memory>
    requires rows { AreRows count rows.now }
    requires slots { AreSlots count rows.now count slots.now }
    requires below { number < count }
    requires long { length table.old.class_of.items ≡ count }
    requires few { length table.old.blocks.items ≤ number }
    ensures long { IfOk result (λ _. length table.new.class_of.items ≡ count) }
    ensures few { IfOk result (λ _. length table.new.blocks.items ≤ number + 1) }
    ensures table { (uses : List (ℕ × ℕ)) → AreAllDependences count uses rows.now
        → IsPartTable count NONE uses number (members_of table.old.blocks.items)
        table.old.class_of.items
        → IfOk result (λ _. IsPartTable count NONE uses (number + 1)
        (members_of table.new.blocks.items) table.new.class_of.items) }
{
    if table.class_of[number as usize] != NONE {
        return Ok(());
    }
    let members = class_from(alloc, count, rows, slots, number)?;
    enroll(&mut table.class_of, &members, table.blocks.len() as u32);
    table.blocks.push(Block { members })?;
    Ok(())
}

/// The class whose least member is `least`.
fn class_from(
    alloc: Global,
    count: u32,
    rows: &[Vec<u64>],
    slots: &[Vec<u32>],
    least: u32,
) -> Result<Vec<u32>, Memory>
    requires rows { AreRows count rows.now }
    requires slots { AreSlots count rows.now count slots.now }
    requires below { least < count }
    ensures first { IfOk result (λ members. Stands members.items 0 least) }
    ensures within { IfOk result (λ members. (n : ℕ) → IsOneOf members.items n
        → (least ≤ n) × (n < count)) }
    ensures is_class { (uses : List (ℕ × ℕ)) → AreAllDependences count uses rows.now
        → ((n : ℕ) → n < least → Together uses least n → ⊥)
        → IfOk result (λ members. IsClass count uses members.items) }
{
    let mut members = vec![in alloc; least]?;
    if !are_mutual(count, rows, least, least) {
        return Ok(members);
    }
    let slot = slot_of(count, rows, least);
    add_others(count, rows, least, &slots[slot as usize], &mut members)?;
    Ok(members)
}

/// Adds those of the candidates that are greater than `least`, on which it depends and that depend
/// on it.
fn add_others(
    count: u32,
    rows: &[Vec<u64>],
    least: u32,
    candidates: &[u32],
    members: &mut Vec<u32>,
) -> Result<(), Memory>
    requires rows { AreRows count rows.now }
    requires below { least < count }
    requires candidates { (n : ℕ) → IsOneOf candidates.now n → n < count }
    requires ascend { Ascends candidates.now }
    requires start { members.old.items ≡ least ∷ [] }
    ensures { IfOk result (λ _. IsSelection rows.now least candidates.now members.new.items) }
{
    for number in candidates {
        if least < *number && are_mutual(count, rows, least, *number) {
            members.push(*number)?;
        }
    }
    Ok(())
}

/// Whether each of two numbers depends on the other.
fn are_mutual(count: u32, rows: &[Vec<u64>], a: u32, b: u32) -> bool
    requires rows { AreRows count rows.now }
    requires a { a < count }
    requires b { b < count }
    ensures { IsTrue result ↔ (HasBit rows.now a b × HasBit rows.now b a) }
{
    has(&rows[a as usize], b) && has(&rows[b as usize], a)
}

/// Notes the class of each of these numbers.
fn enroll(class_of: &mut [u32], members: &[u32], class: u32)
    requires { (n : ℕ) → IsOneOf members.now n → n < length class_of.old }
    ensures members { (n : ℕ) → IsOneOf members.now n → Stands class_of.new n class }
    ensures others { (n : ℕ) → (IsOneOf members.now n → ⊥)
        → slice_get class_of.new n ≡ slice_get class_of.old n }
{
    for member in members {
        class_of[*member as usize] = class;
    }
}
