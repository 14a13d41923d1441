//! The rows of all numbers on which each number depends.

ghost use Rattle.std.specs.Prelude.{◌≡◌, ℕ, ◌≤◌, ◌<◌, ◌⊎◌, ◌↔◌, IsTrue, false, IfOk};
ghost use Rattle.ar_base.specs.Lists.{IsOneOf};
ghost use Rattle.flow_blocks.specs.BlocksInside.{AreUsesBelow};
ghost use Rattle.flow_blocks.specs.Bits.{HasBit, AreRows, AreDependences, AreClosed, room_left};

use crate::rows::{add, empty_rows};
use ar_base::Memory;
use lane_rows::set;
use std::alloc::Global;
use std::mem;

/// The rows of the numbers that each number uses.
pub(crate) fn direct_rows(
    alloc: Global,
    count: u32,
    uses: &[(u32, u32)],
) -> Result<Vec<Vec<u64>>, Memory>
    requires { AreUsesBelow count uses.now }
    ensures rows { IfOk result (λ rows. AreRows count rows.items) }
    ensures bits { IfOk result (λ rows. (a n : ℕ) → HasBit rows.items a n
        ↔ IsOneOf uses.now (a, n)) }
{
    let mut rows = empty_rows(alloc, count)?;
    for (from, to) in uses {
        mark(count, &mut rows, *from, *to);
    }
    Ok(rows)
}

/// Sets a bit of a row.
fn mark(count: u32, rows: &mut [Vec<u64>], from: u32, to: u32)
    requires rows { AreRows count rows.old }
    requires from { from < count }
    requires to { to < count }
    ensures rows { AreRows count rows.new }
    ensures bits { (a n : ℕ) → HasBit rows.new a n
        ↔ (HasBit rows.old a n ⊎ ((a ≡ from) × (n ≡ to))) }
{
    let row = &mut rows[from as usize];
    set(row, to);
}

/// Joins the rows by the uses at these places, and again until no use changes a row.
pub(crate) fn close(
    alloc: Global,
    count: u32,
    rows: &mut [Vec<u64>],
    uses: &[(u32, u32)],
    places: &[u32],
)
    requires rows { AreRows count rows.old }
    requires below { AreUsesBelow count uses.now }
    ensures rows { AreRows count rows.new }
    ensures grows { (a n : ℕ) → HasBit rows.old a n → HasBit rows.new a n }
    ensures sound { AreDependences uses.now rows.old → AreDependences uses.now rows.new }
    ensures closed { AreClosed uses.now rows.new }
{
    loop {
        join_at_all(alloc, count, rows, uses, places);
        if !pass(alloc, count, rows, uses) {
            break;
        }
    }
}

/// Joins the rows by the uses at these places, one after the other.
fn join_at_all(
    alloc: Global,
    count: u32,
    rows: &mut [Vec<u64>],
    uses: &[(u32, u32)],
    places: &[u32],
)
    requires rows { AreRows count rows.old }
    requires below { AreUsesBelow count uses.now }
    ensures rows { AreRows count rows.new }
    ensures grows { (a n : ℕ) → HasBit rows.old a n → HasBit rows.new a n }
    ensures sound { AreDependences uses.now rows.old → AreDependences uses.now rows.new }
    ensures no_more { room_left rows.new ≤ room_left rows.old }
{
    for place in places {
        if let Some((from, to)) = uses.get(*place as usize) {
            let _ = join(alloc, count, rows, *from, *to);
        }
    }
}

/// Joins the rows by each use, and says whether one changed.
fn pass(alloc: Global, count: u32, rows: &mut [Vec<u64>], uses: &[(u32, u32)]) -> bool
    requires rows { AreRows count rows.old }
    requires below { AreUsesBelow count uses.now }
    ensures rows { AreRows count rows.new }
    ensures grows { (a n : ℕ) → HasBit rows.old a n → HasBit rows.new a n }
    ensures sound { AreDependences uses.now rows.old → AreDependences uses.now rows.new }
    ensures closed { result ≡ false → AreClosed uses.now rows.new }
    ensures less { IsTrue result → room_left rows.new < room_left rows.old }
{
    let mut changed = false;
    for (from, to) in uses {
        changed |= join(alloc, count, rows, *from, *to);
    }
    changed
}

/// Adds the row of `to` to the row of `from`, and says whether that changed.
fn join(alloc: Global, count: u32, rows: &mut [Vec<u64>], from: u32, to: u32) -> bool
    requires rows { AreRows count rows.old }
    requires from { from < count }
    requires to { to < count }
    ensures rows { AreRows count rows.new }
    ensures bits { (a n : ℕ) → HasBit rows.new a n
        ↔ (HasBit rows.old a n ⊎ ((a ≡ from) × HasBit rows.old to n)) }
    ensures still { result ≡ false → (n : ℕ) → HasBit rows.old to n → HasBit rows.old from n }
    ensures less { IsTrue result → room_left rows.new < room_left rows.old }
    ensures no_more { room_left rows.new ≤ room_left rows.old }
{
    if from == to {
        return false;
    }
    let mut row = mem::replace(&mut rows[from as usize], Vec::new(alloc));
    let changed = add(&mut row, &rows[to as usize]);
    rows[from as usize] = row;
    changed
}
