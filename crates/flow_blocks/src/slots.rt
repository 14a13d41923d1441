//! The numbers by their rows, so that those with equal rows are found together.

ghost use Rattle.std.specs.Prelude.{◌≡◌, ◌<◌, ◌+◌, IfOk};
ghost use Rattle.flow_blocks.specs.Bits.{row_of, AreRows};
ghost use Rattle.flow_blocks.specs.Slots.{row_sum, slot_of, AreSlots};

use crate::lists::empty_lists;
use ar_base::Memory;
use std::alloc::Global;

/// An odd number whose products spread over all bits.
const FACTOR: u64 = 11_400_714_819_323_198_485;

/// For each slot the numbers whose rows have it, ascending. Numbers that depend on each other have
/// equal rows, so they have one slot. Rows that differ mostly have different ones.
pub(crate) fn slots(alloc: Global, count: u32, rows: &[Vec<u64>]) -> Result<Vec<Vec<u32>>, Memory>
    requires { AreRows count rows.now }
    ensures { IfOk result (λ slots. AreSlots count rows.now count slots.items) }
{
    let mut slots = empty_lists(alloc, count as usize)?;
    for number in 0..count {
        let slot = slot_of(count, rows, number);
        slots[slot as usize].push(number)?;
    }
    Ok(slots)
}

/// The slot of the row of a number.
pub(crate) fn slot_of(count: u32, rows: &[Vec<u64>], number: u32) -> u32
    requires rows { AreRows count rows.now }
    requires below { number < count }
    ensures slot { result ≡ slot_of count (row_of rows.now number) }
    ensures within { result < count }
{
    (sum_of(&rows[number as usize]) % count as u64) as u32
}

/// One number made of all words of a row.
fn sum_of(row: &[u64]) -> u64
    ensures { result ≡ row_sum 0 row.now }
{
    let mut sum: u64 = 0;
    for word in row {
        sum = sum
            .wrapping_mul(FACTOR)
            .wrapping_add(sum >> 32)
            .wrapping_add(*word);
    }
    sum
}
