//! The way from a number down to a set, and back to what was left on it.

ghost use Rattle.std.specs.Prelude.{◌≡◌, ◌≢◌, ◌+◌, ◌≤◌, ℕ, [], ◌∷◌, length, vec_len, vec_capacity};
ghost use Rattle.zdd_nodes.specs.Nodes.{Stored, family, IsFamilyNumber};
ghost use Rattle.min_cuts.specs.Sizes.{largest};
ghost use Rattle.min_cuts.specs.Kept.{taken_events, waiting, to_give, HasRoom, HaveRoom};

use ar_base::EventId;
use zdd_nodes::{NodeId, Store};

/// One step from a node to its upper half: the event that it takes, and the number of the sets without it, which are
/// left for later.
#[derive(Clone, Copy)]
pub(crate) struct Step {
    pub(crate) event: EventId,
    pub(crate) rest: NodeId,
}

/// Goes from a number other than 0 down to the first set of its family, a step for each of the set's events. There is
/// room for the steps, so that it takes no memory.
pub(crate) fn descend(store: &Store, steps: &mut Vec<Step>, from: NodeId)
    requires in_store { IsFamilyNumber store.now from.n }
    requires some { from.n ≢ 0 }
    requires room { vec_len steps.old + largest (family store.now from.n) ≤ vec_capacity steps.old }
    ensures first { to_give store.now steps.old.items from.n
        ≡ taken_events steps.new.items ∷ waiting store.now [] steps.new.items }
    ensures fits { (room : ℕ) → HasRoom store.now room (length steps.old.items) from.n
        → length steps.new.items ≤ room }
    ensures rests { (room : ℕ) → HasRoom store.now room (length steps.old.items) from.n
        → HaveRoom store.now room steps.old.items → HaveRoom store.now room steps.new.items }
    ensures capacity { vec_capacity steps.old ≤ vec_capacity steps.new }
{
    let mut number = from;
    while let Some((event, lo, hi)) = store.split(number) {
        let _ = steps.push(Step { event, rest: lo });
        number = hi;
    }
}

/// Goes back to the last step that left sets, and gives their number; 0 where no step left any. Takes no memory.
pub(crate) fn retreat(steps: &mut Vec<Step>) -> NodeId
    ensures next { (s : Stored) →
        waiting s [] steps.old.items ≡ to_give s steps.new.items result.n }
    ensures fits { (s : Stored) (room : ℕ) → HaveRoom s room steps.old.items → IsFamilyNumber s 0
        → HasRoom s room (length steps.new.items) result.n }
    ensures rests { (s : Stored) (room : ℕ) → HaveRoom s room steps.old.items
        → HaveRoom s room steps.new.items }
    ensures ends { result.n ≡ 0 → steps.new.items ≡ [] }
    ensures capacity { vec_capacity steps.new ≡ vec_capacity steps.old }
{
    while let Some(step) = steps.pop() {
        if step.rest.n != 0 {
            return step.rest;
        }
    }
    NodeId::new(0)
}
