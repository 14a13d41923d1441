//! Each operation by the halves of its operands.

ghost use Rattle.std.specs.Prelude.{◌≤◌, ◌⊎◌, MatchOption};
ghost use Rattle.zdd_nodes.specs.Families.{without, minimal};
ghost use Rattle.zdd_nodes.specs.FamiliesInside.{having};
ghost use Rattle.zdd_nodes.specs.Sections.{IsCounted, IsPartOfBoth, IsHalf};
ghost use Rattle.zdd_nodes.specs.Nodes.{family, IsFamilyNumber, IsSoundStore, Draws};
ghost use Rattle.zdd_ops.specs.Operations.{join_of, AreResultsHeld, IsKnownResult};

use crate::cut::{cut_at, pass, pass_for};
use crate::memo::{Join, Memo, Operation};
use ar_base::EventId;
use zdd_nodes::{NodeFault, NodeId, Store};

/// The join of two families, by the halves of what is left of them.
pub fn join_in(
    store: &mut Store,
    memo: &mut Memo,
    join: Join,
    f: NodeId,
    g: NodeId,
) -> Result<NodeId, NodeFault>
    requires f_in { IsFamilyNumber store.old f.n }
    requires g_in { IsFamilyNumber store.old g.n }
    requires sound { AreResultsHeld memo.old store.old.families }
    requires store { IsSoundStore store.old }
    ensures sound { AreResultsHeld memo.new store.new.families }
    ensures store { IsSoundStore store.new }
    ensures drawn { let made = join_of join (family store.old f.n) (family store.old g.n) in
        Draws (IsCounted made) made store.old store.new result }
{
    let left = pass_for(store, join, f, g);
    if let Some(number) = known_join(join, left.f, left.g) {
        return Ok(number);
    }
    let operation = Operation::Joined(join, left.f, left.g);
    if let Some(number) = memo.recall(operation) {
        return Ok(number);
    }
    let cut = cut_at(store, left.f, left.g);
    let lo = join_in(store, memo, join, cut.f0, cut.g0)?;
    let hi = join_in(store, memo, join, cut.f1, cut.g1)?;
    let made = store.node(cut.event, lo, hi)?;
    memo.remember(operation, made)
}

/// The join where an operand is 0 or both are one.
fn known_join(join: Join, f: NodeId, g: NodeId) -> Option<NodeId>
    ensures { MatchOption result ((2 ≤ f.n) ⊎ (2 ≤ g.n)) (λ n. IsKnownResult (join_of join) f.n g.n n.n) }
{
    let none = NodeId::new(0);
    match join {
        Join::Union => {
            if f.n == 0 || f.n == g.n {
                return Some(g);
            }
            if g.n == 0 {
                return Some(f);
            }
            None
        }
        Join::Meet => {
            if f.n == 0 || g.n == 0 {
                return Some(none);
            }
            if f.n == g.n {
                return Some(f);
            }
            None
        }
        Join::Minus => {
            if f.n == 0 || f.n == g.n {
                return Some(none);
            }
            if g.n == 0 {
                return Some(f);
            }
            None
        }
    }
}

/// The sets of f that contain no set of g, where an operand is 0 or both are one.
fn known_without(f: NodeId, g: NodeId) -> Option<NodeId>
    ensures { MatchOption result ((2 ≤ f.n) ⊎ (2 ≤ g.n)) (λ n. IsKnownResult without f.n g.n n.n) }
{
    if f.n == 0 || g.n == 0 {
        return Some(f);
    }
    if f.n == g.n {
        return Some(NodeId::new(0));
    }
    None
}

/// The sets of f that contain no set of g. Of the sets with the least event those count that contain neither a set
/// of g without it nor one with it, each of them taken off.
pub fn without_in(
    store: &mut Store,
    memo: &mut Memo,
    f: NodeId,
    g: NodeId,
) -> Result<NodeId, NodeFault>
    requires f_in { IsFamilyNumber store.old f.n }
    requires g_in { IsFamilyNumber store.old g.n }
    requires sound { AreResultsHeld memo.old store.old.families }
    requires store { IsSoundStore store.old }
    ensures sound { AreResultsHeld memo.new store.new.families }
    ensures store { IsSoundStore store.new }
    ensures drawn { Draws (IsPartOfBoth (family store.old f.n) (family store.old g.n))
        (without (family store.old f.n) (family store.old g.n)) store.old store.new result }
{
    let left = pass(store, f, g);
    if let Some(number) = known_without(f, left) {
        return Ok(number);
    }
    let operation = Operation::Without(f, left);
    if let Some(number) = memo.recall(operation) {
        return Ok(number);
    }
    let cut = cut_at(store, f, left);
    let lo = without_in(store, memo, cut.f0, cut.g0)?;
    let first = without_in(store, memo, cut.f1, cut.g0)?;
    let second = without_in(store, memo, cut.f1, cut.g1)?;
    let hi = join_in(store, memo, Join::Meet, first, second)?;
    let made = store.node(cut.event, lo, hi)?;
    memo.remember(operation, made)
}

/// The sets of f with the event.
pub fn having_in(
    store: &mut Store,
    memo: &mut Memo,
    f: NodeId,
    event: EventId,
) -> Result<NodeId, NodeFault>
    requires f_in { IsFamilyNumber store.old f.n }
    requires sound { AreResultsHeld memo.old store.old.families }
    requires store { IsSoundStore store.old }
    ensures sound { AreResultsHeld memo.new store.new.families }
    ensures store { IsSoundStore store.new }
    ensures drawn { let made = having (family store.old f.n) event.n in
        Draws (IsCounted made) made store.old store.new result }
{
    let none = NodeId::new(0);
    let Some((least, f0, f1)) = store.split(f) else {
        return Ok(none);
    };
    if event.n < least.n {
        return Ok(none);
    }
    if event.n == least.n {
        return store.node(event, none, f1);
    }
    let operation = Operation::Having(f, event);
    if let Some(number) = memo.recall(operation) {
        return Ok(number);
    }
    let lo = having_in(store, memo, f0, event)?;
    let hi = having_in(store, memo, f1, event)?;
    let made = store.node(least, lo, hi)?;
    memo.remember(operation, made)
}

/// The sets of f without a proper subset in f.
pub fn minimal_in(store: &mut Store, memo: &mut Memo, f: NodeId) -> Result<NodeId, NodeFault>
    requires f_in { IsFamilyNumber store.old f.n }
    requires sound { AreResultsHeld memo.old store.old.families }
    requires store { IsSoundStore store.old }
    ensures sound { AreResultsHeld memo.new store.new.families }
    ensures store { IsSoundStore store.new }
    ensures drawn { Draws (IsHalf (family store.old f.n)) (minimal (family store.old f.n)) store.old
        store.new result }
{
    let Some((event, f0, f1)) = store.split(f) else {
        return Ok(f);
    };
    let operation = Operation::Minimal(f);
    if let Some(number) = memo.recall(operation) {
        return Ok(number);
    }
    let lo = minimal_in(store, memo, f0)?;
    let upper = minimal_in(store, memo, f1)?;
    let hi = without_in(store, memo, upper, lo)?;
    let made = store.node(event, lo, hi)?;
    memo.remember(operation, made)
}
