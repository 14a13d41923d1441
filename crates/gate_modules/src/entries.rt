//! The families that follow the events below a unit's range, and whether they go on alike after each part of the unit.

ghost use Rattle.std.specs.Prelude.{◌≡◌, ◌<◌, ℕ, IfOk, OnOk, length, true, false};
ghost use Rattle.ar_base.specs.Lists.{Stands};
ghost use Rattle.zdd_nodes.specs.Nodes.{NodeId, family, IsFamilyNumber};
ghost use Rattle.zdd_nodes.specs.Bounds.{EndsBelow, node_numbers};
ghost use Rattle.gate_modules.specs.Walked.{AreTwins};
ghost use Rattle.gate_modules.specs.Entries.{AreSeen, IsCovered, AddsSections, AreSectionsAt};
ghost use Rattle.gate_modules.specs.Entries.{IsExit, IsEntryExit, EntriesAnswer};

use crate::twins::{Question, Twin, agree_some};
use ar_base::Memory;
use std::alloc::Global;
use zdd_nodes::{NodeId, Store, below};

/// An entry of a range that has an event of it, and what follows each of its parts.
#[derive(Clone, Copy)]
pub(crate) struct Reference {
    pub(crate) node: NodeId,
    pub(crate) end: NodeId,
}

/// The numbers at or above `from` that are reached from numbers below it, or from outside.
pub(crate) fn entries_of(
    alloc: Global,
    store: &Store,
    root: NodeId,
    from: u32,
) -> Result<Vec<NodeId>, Memory>
    requires { IsFamilyNumber store.now root.n }
    ensures { IfOk result (λ entries.
        AreSectionsAt store.now from root.n (node_numbers entries.items)) }
{
    let mut seen = vec![in alloc; false; root.n as usize + 1]?;
    let mut entries = Vec::new(alloc);
    collect(store, from, root, &mut seen, &mut entries)?;
    Ok(entries)
}

// The same from this number, behind the entries that were found before; what was seen has been gone through.
fn collect(
    store: &Store,
    from: u32,
    number: NodeId,
    seen: &mut [bool],
    entries: &mut Vec<NodeId>,
) -> Result<(), Memory>
    requires in_store { IsFamilyNumber store.now number.n }
    requires room { number.n < length seen.old }
    requires known { AreSeen store.now from seen.old (node_numbers entries.old.items) }
    ensures known { OnOk result (AreSeen store.now from seen.new (node_numbers entries.new.items)) }
    ensures covered { OnOk result
        (IsCovered store.now from (node_numbers entries.new.items) (family store.now number.n)) }
    ensures added { OnOk result
        (AddsSections store.now from number.n (node_numbers entries.old.items)
        (node_numbers entries.new.items)) }
    ensures long { OnOk result (length seen.new ≡ length seen.old) }
{
    if seen[number.n as usize] {
        return Ok(());
    }
    match below(store, from, number) {
        Some((_, lo, hi)) => {
            collect(store, from, hi, seen, entries)?;
            collect(store, from, lo, seen, entries)?;
            seen[number.n as usize] = true;
            Ok(())
        }
        None => {
            entries.push(number)?;
            seen[number.n as usize] = true;
            Ok(())
        }
    }
}

/// What follows the first events of a number below the bound.
pub(crate) fn exit(store: &Store, to: u32, number: NodeId) -> NodeId
    requires in_store { IsFamilyNumber store.now number.n }
    requires some { 0 < number.n }
    ensures { IsExit store.now to number.n result.n }
{
    match below(store, to, number) {
        Some((_, _, hi)) => exit(store, to, hi),
        None => number,
    }
}

/// What follows the first events of an entry below the bound, of which it has some.
pub(crate) fn entry_exit(store: &Store, to: u32, entry: NodeId) -> NodeId
    requires in_store { IsFamilyNumber store.now entry.n }
    requires some { EndsBelow store.now to entry.n → ⊥ }
    ensures { IsEntryExit store.now to entry.n result.n }
{
    match below(store, to, entry) {
        Some((_, _, hi)) => exit(store, to, hi),
        None => entry,
    }
}

/// Whether each entry has no event below the bound, or goes on as the reference after each of the reference's parts and
/// has no other part.
pub(crate) fn entries_agree(
    store: &Store,
    twins: &mut [Twin],
    to: u32,
    reference: Reference,
    entries: &[NodeId],
) -> bool
    requires in_store { (k : ℕ) (e : NodeId) → Stands entries.now k e → IsFamilyNumber store.now e.n }
    requires node_in { IsFamilyNumber store.now reference.node.n }
    requires end_in { IsFamilyNumber store.now reference.end.n }
    requires end_some { 0 < reference.end.n }
    requires room { (k : ℕ) (e : NodeId) → Stands entries.now k e → e.n < length twins.old }
    requires known { AreTwins store.now twins.old }
    ensures is { EntriesAnswer store.now to reference.node.n reference.end.n
        (node_numbers entries.now) result }
    ensures known { AreTwins store.now twins.new }
    ensures long { length twins.new ≡ length twins.old }
{
    for entry in entries {
        let Some((_, _, hi)) = below(store, to, *entry) else {
            continue;
        };
        let asked = Question {
            to,
            end: exit(store, to, hi),
            node_end: reference.end,
        };
        if !agree_some(store, twins, asked, *entry, reference.node) {
            return false;
        }
    }
    true
}
