//! Rows of bits: single bits, and the or of two rows and whether one covers another, some words at a
//! time.
#![tactic(auto)]

ghost use Rattle.std.specs.Prelude.{◌≡◌, ◌≢◌, ℕ, ◌+◌, ◌/◌, ◌≤◌, ◌<◌, ◌⊎◌, ◌↔◌, ◌||◌, IsTrue, length, slice_index, false};
ghost use Rattle.lane_rows.specs.Rows.{IsSet, or_at, CoversBits, TellsDifference, IsOrBetween, CoversBetween};

use std::simd::prelude::*;

/// The bits of a word.
pub const WORD_BITS: usize = 64;

/// The words that are taken at a time.
const LANES: usize = 4;

/// Whether a bit is set. Those past the row's end are not. Takes no memory.
pub fn has(row: &[u64], number: u32) -> bool
    ensures { IsTrue result ↔ IsSet row.now number }
{
    match row.get(number as usize / WORD_BITS) {
        Some(word) => (*word >> (number as usize % WORD_BITS)) & 1 == 1,
        None => false,
    }
}

/// Sets a bit. Takes no memory.
pub fn set(row: &mut [u64], number: u32)
    requires { number / 64 < length row.old }
    ensures { (n : ℕ) → IsSet row.new n ↔ (IsSet row.old n ⊎ (n ≡ number)) }
{
    let place = number as usize / WORD_BITS;
    row[place] |= 1 << (number as usize % WORD_BITS);
}

/// Puts the bitwise or of both rows into `row`, and answers whether `row` changed. Takes no memory.
pub fn or_into(row: &mut [u64], with: &[u64]) -> bool
    requires { length row.old ≡ length with.now }
    ensures or { (k : ℕ) → k < length row.old → slice_index row.new k ≡ or_at row.old with.now k }
    ensures changed { IsTrue result → (k : ℕ) × (k < length row.old)
        × (slice_index row.new k ≢ slice_index row.old k) }
    ensures same { result ≡ false → row.new ≡ row.old }
{
    let mut at = 0;
    let mut changed = false;
    while at + LANES <= row.len() {
        let differs = or_lanes(row, with, at);
        changed = either(changed, differs);
        at += LANES;
    }
    let differs = or_words(row, with, at);
    either(changed, differs)
}

/// Whether one of both holds.
fn either(a: bool, b: bool) -> bool
    ensures { result ≡ (a || b) }
{
    a || b
}

/// The or of the words at `at` and behind it.
fn or_words(row: &mut [u64], with: &[u64], at: usize) -> bool
    requires long { length row.old ≡ length with.now }
    requires within { at ≤ length row.old }
    ensures or { IsOrBetween row.old with.now row.new at (length row.old) }
    ensures tells { TellsDifference row.old with.now at (length row.old) result }
{
    let mut changed = false;
    for i in at..row.len() {
        let word = row[i] | with[i];
        let differs = word != row[i];
        row[i] = word;
        changed = either(changed, differs);
    }
    changed
}

/// The or of the words of one group.
fn or_lanes(row: &mut [u64], with: &[u64], at: usize) -> bool
    requires row { at + 4 ≤ length row.old }
    requires with { at + 4 ≤ length with.now }
    ensures or { IsOrBetween row.old with.now row.new at (at + 4) }
    ensures tells { TellsDifference row.old with.now at (at + 4) result }
{
    let old = u64x4::from_slice(&row[at..]);
    let new = old | u64x4::from_slice(&with[at..]);
    let differs = new.simd_ne(old).to_bitmask() != 0;
    new.copy_to_slice(&mut row[at..]);
    differs
}

/// Whether each bit that is set in `small` is set in `big`. Takes no memory.
pub fn covers(big: &[u64], small: &[u64]) -> bool
    requires { length big.now ≡ length small.now }
    ensures { IsTrue result ↔ CoversBits big.now small.now }
{
    let mut at = 0;
    while at + LANES <= big.len() {
        if !covers_lanes(big, small, at) {
            return false;
        }
        at += LANES;
    }
    covers_words(big, small, at)
}

/// Whether the words at `at` and behind it cover those of `small`.
fn covers_words(big: &[u64], small: &[u64], at: usize) -> bool
    requires long { length big.now ≡ length small.now }
    requires within { at ≤ length big.now }
    ensures { CoversBetween big.now small.now at (length big.now) result }
{
    for i in at..big.len() {
        if big[i] | small[i] != big[i] {
            return false;
        }
    }
    true
}

/// Whether the words of one group cover those of `small`.
fn covers_lanes(big: &[u64], small: &[u64], at: usize) -> bool
    requires big { at + 4 ≤ length big.now }
    requires small { at + 4 ≤ length small.now }
    ensures { CoversBetween big.now small.now at (at + 4) result }
{
    let have = u64x4::from_slice(&big[at..]);
    let joint = have | u64x4::from_slice(&small[at..]);
    joint.simd_ne(have).to_bitmask() == 0
}
