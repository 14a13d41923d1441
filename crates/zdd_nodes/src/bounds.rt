//! Numbers of a store by a bound of events.

ghost use Rattle.std.specs.Prelude.{◌≡◌, ◌↔◌, ◌⊎◌, ℕ, MatchOption, true};
ghost use Rattle.ar_base.specs.Lists.{Stands};
ghost use Rattle.zdd_nodes.specs.Nodes.{NodeId, IsFamilyNumber, IsSoundStore};
ghost use Rattle.zdd_nodes.specs.Bounds.{node_numbers, EndsBelow, HasBelow, AllEnd, IsReference};

use crate::{NodeId, Store};
use ar_base::EventId;

/// The event and the halves of a number whose family has an event below the bound. Takes no memory.
pub fn below(store: &Store, to: u32, number: NodeId) -> Option<(EventId, NodeId, NodeId)>
    requires { IsFamilyNumber store.now number.n }
    ensures halves { MatchOption result (EndsBelow store.now to number.n)
        (λ t. HasBelow store.now to number.n t.0.n t.1.n t.2.n) }
    ensures sound { IsSoundStore store.now }
{
    match store.split(number) {
        Some((event, lo, hi)) if event.n < to => Some((event, lo, hi)),
        _ => None,
    }
}

/// The first of these numbers whose family has an event below the bound. Takes no memory.
pub fn first_with_event(store: &Store, to: u32, numbers: &[NodeId]) -> Option<NodeId>
    requires { (k : ℕ) (n : NodeId) → Stands numbers.now k n → IsFamilyNumber store.now n.n }
    ensures { MatchOption result (AllEnd store.now to (node_numbers numbers.now))
        (λ n. IsReference store.now to (node_numbers numbers.now) n.n) }
{
    for number in numbers {
        match below(store, to, *number) {
            Some(_) => return Some(*number),
            None => {}
        }
    }
    None
}

/// Whether both families are empty, or the first is the one that is to follow for it, and the second too. Takes no memory.
pub fn both_end(first: NodeId, second: NodeId, end: NodeId, second_end: NodeId) -> bool
    ensures { (result ≡ true) ↔ (((first.n ≡ 0) × (second.n ≡ 0))
        ⊎ ((first.n ≡ end.n) × (second.n ≡ second_end.n))) }
{
    (first.n == 0 && second.n == 0) || (first.n == end.n && second.n == second_end.n)
}
