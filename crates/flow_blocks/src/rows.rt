//! One row of bits for each number.

ghost use Rattle.std.specs.Prelude.{◌≡◌, ℕ, ◌+◌, ◌/◌, ◌≤◌, ◌<◌, ◌⊎◌, ◌↔◌, IsTrue, false, IfOk, length};
ghost use Rattle.lane_rows.specs.Rows.{IsSet};
ghost use Rattle.flow_blocks.specs.Bits.{HasBit, AreRows, room_of};

use ar_base::Memory;
use lane_rows::{WORD_BITS, or_into};
use std::alloc::Global;

/// A row of bits for each number, none of them set.
pub(crate) fn empty_rows(alloc: Global, count: u32) -> Result<Vec<Vec<u64>>, Memory>
    ensures rows { IfOk result (λ rows. AreRows count rows.items) }
    ensures none { IfOk result (λ rows. (a n : ℕ) → HasBit rows.items a n → ⊥) }
{
    let words = (count as usize + (WORD_BITS - 1)) / WORD_BITS;
    let mut rows: Vec<Vec<u64>> = Vec::with_capacity(alloc, count as usize)?;
    while rows.len() < count as usize {
        rows.push(vec![in alloc; 0u64; words]?)?;
    }
    Ok(rows)
}

/// Adds one row to another, and says whether the other changed.
pub(crate) fn add(row: &mut [u64], with: &[u64]) -> bool
    requires { length row.old ≡ length with.now }
    ensures bits { (n : ℕ) → IsSet row.new n ↔ (IsSet row.old n ⊎ IsSet with.now n) }
    ensures still { result ≡ false → row.new ≡ row.old }
    ensures less { IsTrue result → room_of row.new < room_of row.old }
    ensures no_more { room_of row.new ≤ room_of row.old }
{
    or_into(row, with)
}
