//! States of the walk: the number of what is left of each tree.

ghost use Rattle.std.specs.Prelude.{◌≡◌, ◌<◌, ◌++◌, ℕ, List, false, nat_eq, IfOk, [], ◌∷◌};
ghost use Rattle.std.specs.List.{list_any};
ghost use Rattle.zdd_nodes.specs.Families.{Family as Sets};
ghost use Rattle.zdd_nodes.specs.Nodes.{family, IsFamilyNumber};
ghost use Rattle.firable_families.specs.Walk.{occurs, some_occurs};
ghost use Rattle.gate_diagrams.specs.Walked.{families_left, AreNumbers, IsHalfNumber, AreHalves, IsLeastEvent};

use ar_base::{EventId, Memory};
use std::alloc::Global;
use zdd_nodes::{NodeId, Store};

/// Whether nothing is possible any more in one of the trees. Takes no memory.
pub(crate) fn is_dead(left: &[NodeId]) -> bool
    ensures { result ≡ list_any (λ n. nat_eq n.n 0) left.now }
{
    for tree in left {
        if tree.n == 0 {
            return true;
        }
    }
    false
}

/// The least event that a tree still has. Takes no memory.
pub(crate) fn least_event(trees: &Store, left: &[NodeId]) -> Option<EventId>
    requires { AreNumbers trees.now left.now }
    ensures { IsLeastEvent (families_left trees.now left.now) result }
{
    let mut least = None;
    for tree in left {
        least = sooner(least, first_event(trees, *tree));
    }
    least
}

// The least event of a family.
fn first_event(trees: &Store, tree: NodeId) -> Option<EventId>
    requires { IsFamilyNumber trees.now tree.n }
    ensures { IsLeastEvent (family trees.now tree.n ∷ []) result }
{
    let (event, _, _) = trees.split(tree)?;
    Some(event)
}

// The lesser of two events.
fn sooner(a: Option<EventId>, b: Option<EventId>) -> Option<EventId>
    ensures { (fs gs : List Sets) → IsLeastEvent fs a → IsLeastEvent gs b
        → IsLeastEvent (fs ++ gs) result }
{
    match (a, b) {
        (Some(first), Some(second)) => {
            if first.n <= second.n {
                Some(first)
            } else {
                Some(second)
            }
        }
        (Some(first), None) => Some(first),
        (None, second) => second,
    }
}

/// What is left of each tree where the event is taken, or where it is left out.
pub(crate) fn halves(
    alloc: Global,
    trees: &Store,
    event: EventId,
    left: &[NodeId],
    taken: bool,
) -> Result<Vec<NodeId>, Memory>
    requires in_store { AreNumbers trees.now left.now }
    requires least { (x : ℕ) → x < event.n
        → some_occurs x (families_left trees.now left.now) ≡ false }
    ensures { IfOk result (λ halves. AreHalves trees.now event.n taken left.now halves.items) }
{
    let mut made = Vec::new(alloc);
    for tree in left {
        made.push(half(trees, event, *tree, taken))?;
    }
    Ok(made)
}

// What is left of one tree.
fn half(trees: &Store, event: EventId, tree: NodeId, taken: bool) -> NodeId
    requires in_store { IsFamilyNumber trees.now tree.n }
    requires least { (x : ℕ) → x < event.n → occurs x (family trees.now tree.n) ≡ false }
    ensures { IsHalfNumber trees.now event.n taken tree.n result.n }
{
    let Some((first, lo, hi)) = trees.split(tree) else {
        return tree;
    };
    if first.n != event.n {
        return tree;
    }
    if taken { hi } else { lo }
}
