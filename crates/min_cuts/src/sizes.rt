//! How many sets a family has, and how large they are, without listing them.

ghost use Rattle.std.specs.Prelude.{◌≡◌, ◌≤◌, IfOk, length};
ghost use Rattle.zdd_nodes.specs.Nodes.{family as family_of, IsFamilyNumber, IsSoundStore};
ghost use Rattle.min_cuts.specs.Sizes.{largest as largest_of, count};
ghost use Rattle.min_cuts.specs.Kept.{AreMeasured, AreWithinPlaces};

use ar_base::Memory;
use gate_diagrams::Family;
use std::alloc::Global;
use zdd_nodes::{NodeId, Store};

/// The counts of a family.
#[derive(Clone, Copy)]
pub struct Counted {
    /// How many sets it has, 2^128 - 1 where it has more.
    pub sets: u128,
    /// How many events its largest set has, 0 where it has no set.
    pub largest: u32,
}

/// The counts of a family, by two passes over the nodes of its store, each child before its parents.
pub fn counts(alloc: Global, family: &Family) -> Result<Counted, Memory>
    requires root { IsFamilyNumber family.now.store family.now.root.n }
    ensures sets { IfOk result (λ c.
        c.sets ≡ count (family_of family.now.store family.now.root.n)) }
    ensures largest { IfOk result (λ c.
        c.largest ≡ largest_of (family_of family.now.store family.now.root.n)) }
{
    let (store, root) = (&family.store, family.root);
    let mut table = Vec::with_capacity(alloc, root.n as usize)?;
    for number in 0..root.n {
        table.push(count_at(store, NodeId::new(number), &table))?;
    }
    let sets = count_at(store, root, &table);
    let largest = largest(alloc, store, root)?;
    Ok(Counted { sets, largest })
}

// How many sets the family of a number has, where the table has those of the earlier numbers.
fn count_at(store: &Store, number: NodeId, table: &[u128]) -> u128
    requires in_store { IsFamilyNumber store.now number.n }
    requires long { number.n ≤ length table.now }
    requires table { AreMeasured count store.now table.now }
    ensures { result ≡ count (family_of store.now number.n) }
{
    match store.split(number) {
        Some((_, lo, hi)) => table[hi.n as usize].saturating_add(table[lo.n as usize]),
        // 0 is the empty family, 1 that of the empty set.
        None => u128::from(number.n),
    }
}

/// How many events the largest set of the family of a number has, 0 where it has no set.
pub(crate) fn largest(alloc: Global, store: &Store, root: NodeId) -> Result<u32, Memory>
    requires { IsFamilyNumber store.now root.n }
    ensures largest { IfOk result (λ size. size ≡ largest_of (family_of store.now root.n)) }
    ensures sound { IfOk result (λ _. IsSoundStore store.now) }
{
    let mut table = Vec::with_capacity(alloc, root.n as usize)?;
    for number in 0..root.n {
        table.push(largest_at(store, NodeId::new(number), &table))?;
    }
    Ok(largest_at(store, root, &table))
}

// The same, where the table has those of the earlier numbers.
fn largest_at(store: &Store, number: NodeId, table: &[u32]) -> u32
    requires in_store { IsFamilyNumber store.now number.n }
    requires long { number.n ≤ length table.now }
    requires table { AreMeasured largest_of store.now table.now }
    requires small { AreWithinPlaces table.now }
    ensures is { result ≡ largest_of (family_of store.now number.n) }
    ensures small { result ≤ number.n }
    ensures sound { IsSoundStore store.now }
{
    match store.split(number) {
        Some((_, lo, hi)) => (table[hi.n as usize] + 1).max(table[lo.n as usize]),
        None => 0,
    }
}
