//! The numbers that stand in pairs with some firsts.

ghost use Rattle.std.specs.Prelude.{◌≡◌, ◌++◌, ◌↔◌, ℕ, map, IfOk};
ghost use Rattle.std.specs.List.Sorted.{IsNonDecreasingBy};
ghost use Rattle.ar_base.specs.Lists.{IsOneOf};
ghost use Rattle.ar_base.specs.Sets.{Ascends};
ghost use Rattle.ar_base.specs.Pairing.{AddsRun, IsPaired};

use crate::Memory;
use crate::indexed::{IndexedPairs, run_in, start_of};
use std::alloc::Global;

/// The numbers that stand in pairs with one of these firsts, ascending, each once. The error is want of memory.
pub fn paired(alloc: Global, pairs: &[(u32, u32)], firsts: &[u32]) -> Result<Vec<u32>, Memory>
    requires { IsNonDecreasingBy (λ q. q.0) pairs.now }
    ensures ascends { IfOk result (λ all. Ascends all.items) }
    ensures each { IfOk result (λ all. (n : ℕ)
        → (IsOneOf all.items n ↔ IsPaired pairs.now firsts.now n)) }
{
    let mut all = Vec::new(alloc);
    for first in firsts {
        add_run(pairs, *first, &mut all)?;
    }
    all.sort_unstable();
    all.dedup();
    Ok(all)
}

/// The same by indexed pairs, each first in constant time.
pub fn paired_by(alloc: Global, pairs: &IndexedPairs, firsts: &[u32]) -> Result<Vec<u32>, Memory>
    ensures ascends { IfOk result (λ all. Ascends all.items) }
    ensures each { IfOk result (λ all. (n : ℕ)
        → (IsOneOf all.items n ↔ IsPaired pairs.now.pairs.items firsts.now n)) }
{
    let mut all = Vec::new(alloc);
    for first in firsts {
        add_indexed(pairs, *first, &mut all)?;
    }
    all.sort_unstable();
    all.dedup();
    Ok(all)
}

// Adds the numbers that stand in indexed pairs with a first.
fn add_indexed(pairs: &IndexedPairs, first: u32, all: &mut Vec<u32>) -> Result<(), Memory>
    ensures { IfOk result (λ _. AddsRun pairs.now.pairs.items first all.old.items all.new.items) }
{
    add_numbers(run_in(pairs, first), all)
}

// Adds the numbers that stand in pairs with a first.
fn add_run(pairs: &[(u32, u32)], first: u32, all: &mut Vec<u32>) -> Result<(), Memory>
    requires { IsNonDecreasingBy (λ q. q.0) pairs.now }
    ensures { IfOk result (λ _. AddsRun pairs.now first all.old.items all.new.items) }
{
    add_numbers(run_of(pairs, first), all)
}

// Adds the numbers of these pairs.
fn add_numbers(run: &[(u32, u32)], all: &mut Vec<u32>) -> Result<(), Memory>
    ensures { IfOk result (λ _. all.new.items ≡ all.old.items ++ map (λ q. q.1) run.now) }
{
    for (_, number) in run {
        all.push(*number)?;
    }
    Ok(())
}

// The pairs with a first.
fn run_of(pairs: &[(u32, u32)], first: u32) -> &[(u32, u32)]
    requires { IsNonDecreasingBy (λ q. q.0) pairs.now }
    ensures among { (q : ℕ × ℕ) → IsOneOf result.now q → IsOneOf pairs.now q × (q.0 ≡ first) }
    ensures all { (n : ℕ) → IsOneOf pairs.now (first, n) → IsOneOf result.now (first, n) }
{
    let from = start_of(pairs, first as usize);
    let to = start_of(pairs, first as usize + 1);
    &pairs[from..to]
}
