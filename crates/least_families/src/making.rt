//! Unions and products of families of least sets.

ghost use Rattle.std.specs.Prelude.{◌≡◌, ◌≤◌, ◌-◌, ◌&&◌, ◌||◌, ◌⊎◌, MatchOption, IfOk, true, false};
ghost use Rattle.zdd_nodes.specs.Nodes.{family};
ghost use Rattle.std.specs.Option.{option_map};
ghost use Rattle.least_families.specs.Least.{covers};
ghost use Rattle.least_families.specs.Held.{AreLeastHeld, IsUnionKnown};
ghost use Rattle.least_families.specs.Kept.{KeepsHeld, IsOperand, IsLeastOf};

use crate::halves::halves_of;
use crate::memo::{Memo, Operation};
use zdd_nodes::{NodeFault, NodeId};
use zdd_ops::Ops;

/// The least sets of two families, of each of which no set lies within another. Full comes where the store has its limit of
/// nodes; no clause tells when, since who calls this has another way to the answer then. Older numbers keep their families.
pub fn union_least(
    ops: &mut Ops,
    memo: &mut Memo,
    f: NodeId,
    g: NodeId,
) -> Result<NodeId, NodeFault>
    requires first { IsOperand ops.old f.n }
    requires second { IsOperand ops.old g.n }
    requires held { AreLeastHeld memo.old ops.old.families }
    ensures kept { KeepsHeld ops.old memo.new ops.new }
    ensures least { IfOk result (λ n. IsLeastOf None
        (λ s. covers (family ops.old f.n) s || covers (family ops.old g.n) s) ops.new n.n) }
{
    if let Some(number) = known_union(f, g) {
        return Ok(number);
    }
    let operation = Operation::Union(f, g);
    if let Some(number) = memo.recall(operation) {
        return Ok(number);
    }
    let halves = halves_of(ops.store(), f, g);
    let lo = union_least(ops, memo, halves.f0, halves.g0)?;
    let with = union_least(ops, memo, halves.f1, halves.g1)?;
    let hi = ops.without(with, lo)?;
    let made = ops.node(halves.event, lo, hi)?;
    memo.remember(operation, made)
}

// The union where an operand is 0 or 1 or both are one.
fn known_union(f: NodeId, g: NodeId) -> Option<NodeId>
    ensures { MatchOption result ((2 ≤ f.n) ⊎ (2 ≤ g.n)) (λ n. IsUnionKnown f.n g.n n.n) }
{
    if f.n == 0 || f.n == g.n || g.n == 1 {
        return Some(g);
    }
    if g.n == 0 || f.n == 1 {
        return Some(f);
    }
    None
}

// Whether no member is left to take.
fn is_spent(order: Option<u32>) -> bool
    ensures yes { result ≡ true → order ≡ Some 0 }
    ensures no { result ≡ false → order ≡ Some 0 → ⊥ }
{
    match order {
        None => false,
        Some(most) => most == 0,
    }
}

// At most how many members are left to take after one.
fn one_fewer(order: Option<u32>) -> Option<u32>
    ensures { result ≡ option_map (λ k. k - 1) order }
{
    order.map(|most| most.saturating_sub(1))
}

// The sets of at most so many members, of a family of which no set lies within another.
fn few(ops: &mut Ops, memo: &mut Memo, f: NodeId, most: u32) -> Result<NodeId, NodeFault>
    requires operand { IsOperand ops.old f.n }
    requires held { AreLeastHeld memo.old ops.old.families }
    ensures kept { KeepsHeld ops.old memo.new ops.new }
    ensures least { IfOk result
        (λ n. IsLeastOf (Some most) (covers (family ops.old f.n)) ops.new n.n) }
{
    let Some((event, f0, f1)) = ops.store().split(f) else {
        return Ok(f);
    };
    if most == 0 {
        return Ok(NodeId::new(0));
    }
    let operation = Operation::Few(f, most);
    if let Some(number) = memo.recall(operation) {
        return Ok(number);
    }
    let lo = few(ops, memo, f0, most)?;
    let hi = few(ops, memo, f1, most - 1)?;
    let made = ops.node(event, lo, hi)?;
    memo.remember(operation, made)
}

/// The sets of at most as many members as are asked for, of a family of which no set lies within another.
pub fn least_up_to(
    ops: &mut Ops,
    memo: &mut Memo,
    f: NodeId,
    order: Option<u32>,
) -> Result<NodeId, NodeFault>
    requires operand { IsOperand ops.old f.n }
    requires held { AreLeastHeld memo.old ops.old.families }
    ensures kept { KeepsHeld ops.old memo.new ops.new }
    ensures least { IfOk result (λ n. IsLeastOf order (covers (family ops.old f.n)) ops.new n.n) }
{
    match order {
        None => Ok(f),
        Some(most) => few(ops, memo, f, most),
    }
}

/// The least unions of a set of each family, of at most as many members as are asked for; of each family no set lies within
/// another. A union with the least event of both takes a set with the event of one family at least; of these unions those go
/// that contain one without the event.
pub fn product_least(
    ops: &mut Ops,
    memo: &mut Memo,
    f: NodeId,
    g: NodeId,
    order: Option<u32>,
) -> Result<NodeId, NodeFault>
    requires first { IsOperand ops.old f.n }
    requires second { IsOperand ops.old g.n }
    requires held { AreLeastHeld memo.old ops.old.families }
    ensures kept { KeepsHeld ops.old memo.new ops.new }
    ensures least { IfOk result (λ n. IsLeastOf order
        (λ s. covers (family ops.old f.n) s && covers (family ops.old g.n) s) ops.new n.n) }
{
    if f.n == 0 || g.n == 0 {
        return Ok(NodeId::new(0));
    }
    if f.n == 1 || f.n == g.n {
        return least_up_to(ops, memo, g, order);
    }
    if g.n == 1 {
        return least_up_to(ops, memo, f, order);
    }
    let halves = halves_of(ops.store(), f, g);
    if is_spent(order) {
        return Ok(NodeId::new(0));
    }
    let operation = Operation::Product(f, g, order);
    if let Some(number) = memo.recall(operation) {
        return Ok(number);
    }
    let lo = product_least(ops, memo, halves.f0, halves.g0, order)?;
    let fewer = one_fewer(order);
    let both = product_least(ops, memo, halves.f1, halves.g1, fewer)?;
    let first = product_least(ops, memo, halves.f1, halves.g0, fewer)?;
    let second = product_least(ops, memo, halves.f0, halves.g1, fewer)?;
    let either = union_least(ops, memo, first, second)?;
    let upper = union_least(ops, memo, both, either)?;
    let hi = ops.without(upper, lo)?;
    let made = ops.node(halves.event, lo, hi)?;
    memo.remember(operation, made)
}
