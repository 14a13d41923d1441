//! Pairs of numbers, and where the pairs of each first stand.

ghost use Rattle.std.specs.Prelude.{◌≡◌, ◌+◌, ◌<◌, ◌≤◌, ℕ, length, IfOk, IsPermutation};
ghost use Rattle.std.specs.List.Sorted.{IsNonDecreasingBy};
ghost use Rattle.ar_base.specs.Lists.{IsOneOf, Stands};
ghost use Rattle.ar_base.specs.Starts.{IsPairStart, ArePairStarts};

use crate::Memory;
use std::alloc::Global;

/// Pairs of numbers in the order of their firsts, and where the pairs of each first stand.
#[derive(Drop)]
pub struct IndexedPairs {
    /// The pairs.
    pub pairs: Vec<(u32, u32)>,
    /// For each number up to the greatest first the place where its pairs begin, and last the number of pairs: the pairs of a
    /// first end where those of the next number begin.
    pub starts: Vec<usize>,
    ghost runs: { ArePairStarts pairs.items starts.items },
}

/// The pairs in the order of their firsts, each as often as it is given. The error is want of memory.
pub fn index_pairs(alloc: Global, pairs: Vec<(u32, u32)>) -> Result<IndexedPairs, Memory>
    ensures { IfOk result (λ indexed. IsPermutation pairs.items indexed.pairs.items) }
{
    let mut pairs = pairs;
    pairs.sort_unstable_by_key(|pair| pair.0);
    let starts = starts_of(alloc, &pairs, count_of(&pairs))?;
    Ok(IndexedPairs { pairs, starts })
}

// One more than the greatest first and one, which stands last; 0 where there is no pair.
fn count_of(pairs: &[(u32, u32)]) -> usize
    requires { IsNonDecreasingBy (λ q. q.0) pairs.now }
    ensures above { (q : ℕ × ℕ) → IsOneOf pairs.now q → q.0 + 1 < result }
    ensures least { 0 < result → (q : ℕ × ℕ) × IsOneOf pairs.now q × (q.0 + 2 ≡ result) }
{
    match pairs.last() {
        Some(pair) => pair.0 as usize + 2,
        None => 0,
    }
}

// Where the pairs of each of the first so many numbers begin.
fn starts_of(alloc: Global, pairs: &[(u32, u32)], count: usize) -> Result<Vec<usize>, Memory>
    requires { IsNonDecreasingBy (λ q. q.0) pairs.now }
    ensures long { IfOk result (λ starts. length starts.items ≡ count) }
    ensures each { IfOk result (λ starts. (x start : ℕ) → Stands starts.items x start
        → IsPairStart pairs.now x start) }
{
    let mut starts = Vec::new(alloc);
    for first in 0..count {
        starts.push(start_of(pairs, first))?;
    }
    Ok(starts)
}

// How many pairs have a lesser first.
pub(crate) fn start_of(pairs: &[(u32, u32)], first: usize) -> usize
    requires { IsNonDecreasingBy (λ q. q.0) pairs.now }
    ensures { IsPairStart pairs.now first result }
{
    pairs.partition_point(|q| (q.0 as usize) < first)
}

// The pairs with a first, in constant time.
pub(crate) fn run_in(indexed: &IndexedPairs, first: u32) -> &[(u32, u32)]
    ensures among { (q : ℕ × ℕ) → IsOneOf result.now q
        → IsOneOf indexed.now.pairs.items q × (q.0 ≡ first) }
    ensures all { (n : ℕ) → IsOneOf indexed.now.pairs.items (first, n)
        → IsOneOf result.now (first, n) }
{
    let place = first as usize;
    if place + 1 >= indexed.starts.len() {
        return &[];
    }
    &indexed.pairs[indexed.starts[place]..indexed.starts[place + 1]]
}
