//! A family of one store, with its events named, in another.

ghost use Rattle.std.specs.Prelude.{◌≡◌, ◌+◌, ◌<◌, ◌≤◌, ◌⊎◌, ◌≢◌, Err, IfOk, MatchOption, length, replicate, slice_index_or};
ghost use Rattle.zdd_nodes.specs.Nodes.{family, IsNode, IsFamilyNumber, IsSoundStore};
ghost use Rattle.diagram_steps.specs.Putting.{Extends, IsAtLimit};
ghost use Rattle.named_families.specs.Names.{AreNamed, HaveNames};
ghost use Rattle.named_families.specs.Named.{AreKept};

use crate::putting::put_in_all;
use crate::union::union_of;
use ar_base::{EventId, Memory};
use std::alloc::Global;
use zdd_nodes::{NodeFault, NodeId, Store};
use zdd_ops::Ops;

/// The number that a family of the source has in the second store when each of its events gives way to the event that stands
/// at its place in the list of names. Full comes only where the second store has its limit of nodes. Older numbers keep their
/// families, also where the answer is a fault.
pub fn named_family(
    alloc: Global,
    ops: &mut Ops,
    names: &[EventId],
    source: &Store,
    root: NodeId,
) -> Result<NodeId, NodeFault>
    requires sound { IsSoundStore source.now }
    requires root_in { IsFamilyNumber source.now root.n }
    requires names { HaveNames names.now (family source.now root.n) }
    ensures grows { Extends ops.old ops.new }
    ensures in_store { IfOk result (λ n. IsFamilyNumber ops.new n.n) }
    ensures named { IfOk result
        (λ n. AreNamed names.now (family source.now root.n) (family ops.new n.n)) }
    ensures full { result ≡ Err NodeFault.Full → IsAtLimit ops.new }
{
    let mut kept = none_kept(alloc, source)?;
    named(alloc, ops, names, source, &mut kept, root)
}

// For each number of the source 0: none is named yet.
fn none_kept(alloc: Global, source: &Store) -> Result<Vec<NodeId>, Memory>
    ensures { IfOk result (λ v. v.items ≡ replicate (length source.now.families + 2) (record { n = 0; of = record {} })) }
{
    let kept = vec![in alloc; NodeId::new(0); source.len() as usize + 2]?;
    Ok(kept)
}

// The node whose named family is not known yet: its event and its halves.
fn unnamed(source: &Store, kept: &[NodeId], number: NodeId) -> Option<(EventId, NodeId, NodeId)>
    requires number_in { IsFamilyNumber source.now number.n }
    requires long { length kept.now ≡ length source.now.families + 2 }
    ensures { MatchOption result
        ((number.n < 2) ⊎ ((slice_index_or kept.now number.n number).n ≢ 0))
        (λ t. IsNode source.now.families number.n t.0.n t.1.n t.2.n) }
{
    if kept[number.n as usize].n != 0 {
        return None;
    }
    source.split(number)
}

// The number of the named family where it is known: 0 and 1 stand for the same in each store.
fn known(kept: &[NodeId], number: NodeId) -> NodeId
    requires { number.n < length kept.now }
    ensures small { number.n < 2 → result ≡ number }
    ensures others { 2 ≤ number.n → result ≡ slice_index_or kept.now number.n number }
{
    if number.n < 2 {
        return number;
    }
    kept[number.n as usize]
}

// The named family of a number. Its sets fall apart by their least event: those with the event of the number, those without
// it and with the event of the number that is left, and so on, to one whose named family is known.
fn named(
    alloc: Global,
    ops: &mut Ops,
    names: &[EventId],
    source: &Store,
    kept: &mut [NodeId],
    number: NodeId,
) -> Result<NodeId, NodeFault>
    requires sound { IsSoundStore source.now }
    requires number_in { IsFamilyNumber source.now number.n }
    requires names { HaveNames names.now (family source.now number.n) }
    requires kept { AreKept names.now source.now ops.old kept.old }
    ensures grows { Extends ops.old ops.new }
    ensures kept { AreKept names.now source.now ops.new kept.new }
    ensures in_store { IfOk result (λ n. IsFamilyNumber ops.new n.n) }
    ensures named { IfOk result
        (λ n. AreNamed names.now (family source.now number.n) (family ops.new n.n)) }
    ensures full { result ≡ Err NodeFault.Full → IsAtLimit ops.new }
{
    let mut parts = Vec::new(alloc);
    let mut left = number;
    while let Some((event, lo, hi)) = unnamed(source, kept, left) {
        let upper = named(alloc, ops, names, source, kept, hi)?;
        let part = put_in_all(alloc, ops, upper, names[event.n as usize])?;
        parts.push(part)?;
        left = lo;
    }
    parts.push(known(kept, left))?;
    let whole = union_of(ops, &parts)?;
    kept[number.n as usize] = whole;
    Ok(whole)
}
