//! A family of one store in another.

ghost use Rattle.std.specs.Prelude.{◌≡◌, ◌+◌, IfOk, length, replicate};
ghost use Rattle.zdd_nodes.specs.Sections.{IsCounted};
ghost use Rattle.zdd_nodes.specs.Nodes.{family, IsFamilyNumber, IsSoundStore, Draws};
ghost use Rattle.mode_diagrams.specs.Kept.{AreCopied};

use ar_base::Memory;
use std::alloc::Global;
use zdd_nodes::{NodeFault, NodeId, Store};
use zdd_ops::Ops;

/// The number that a family of the first store has in the second. Each node that is added is a counted section of the
/// family.
pub fn copied(
    alloc: Global,
    ops: &mut Ops,
    source: &Store,
    root: NodeId,
) -> Result<NodeId, NodeFault>
    requires sound { IsSoundStore source.now }
    requires root_in { IsFamilyNumber source.now root.n }
    ensures drawn { Draws (IsCounted (family source.now root.n)) (family source.now root.n) ops.old
        ops.new result }
{
    let mut copies = no_copies(alloc, source)?;
    copy(ops, source, &mut copies, root)
}

// For each number of the store 0: none is copied.
fn no_copies(alloc: Global, source: &Store) -> Result<Vec<NodeId>, Memory>
    ensures { IfOk result (λ v. v.items ≡ replicate (length source.now.families + 2) (record { n = 0; of = record {} })) }
{
    let copies = vec![in alloc; NodeId::new(0); source.len() as usize + 2]?;
    Ok(copies)
}

// The number of a family, half by half; each node is copied once.
fn copy(
    ops: &mut Ops,
    source: &Store,
    copies: &mut [NodeId],
    number: NodeId,
) -> Result<NodeId, NodeFault>
    requires sound { IsSoundStore source.now }
    requires number_in { IsFamilyNumber source.now number.n }
    requires copied { AreCopied source.now ops.old copies.old }
    ensures copied { AreCopied source.now ops.new copies.new }
    ensures drawn { Draws (IsCounted (family source.now number.n)) (family source.now number.n)
        ops.old ops.new result }
{
    let Some((event, lo, hi)) = source.split(number) else {
        return Ok(number);
    };
    let known = copies[number.n as usize];
    if known.n != 0 {
        return Ok(known);
    }
    let lower = copy(ops, source, copies, lo)?;
    let upper = copy(ops, source, copies, hi)?;
    let made = ops.node(event, lower, upper)?;
    copies[number.n as usize] = made;
    Ok(made)
}
