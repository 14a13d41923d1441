//! The walk through the firable sets, event by event.

ghost use Rattle.std.specs.Prelude.{◌≡◌, ℕ, Some, true, false, OnOk};
ghost use Rattle.zdd_nodes.specs.Sections.{IsCounted};
ghost use Rattle.zdd_nodes.specs.Nodes.{Draws, IsSoundStore};
ghost use Rattle.firable_families.specs.Walk.{left as left_of, few_of, one_fewer as fewer, AreEventsBelow};
ghost use Rattle.gate_diagrams.specs.Walked.{families_left, AreNumbers, AreWalked};

use crate::states::{halves, is_dead, least_event};
use crate::walked::{State, Walked};
use std::alloc::Global;
use zdd_nodes::{NodeFault, NodeId, Store};
use zdd_ops::Ops;

/// The family of the sets that take one of the sets still possible in each tree, of those that have at most as many events as
/// are left to take. At the least event that a tree has, it is the family of what is left without the event and of what is
/// left with it and one event fewer. Each node that is added is a counted section of the result.
pub(crate) fn walk(
    alloc: Global,
    ops: &mut Ops,
    walked: &mut Walked,
    trees: &Store,
    state: State,
) -> Result<NodeId, NodeFault>
    requires sound { IsSoundStore trees.now }
    requires in_store { AreNumbers trees.now state.left.items }
    requires walked { AreWalked trees.now ops.old walked.old }
    requires made { IsSoundStore ops.old }
    ensures sound { OnOk result (IsSoundStore ops.new) }
    ensures walked { AreWalked trees.now ops.new walked.new }
    ensures drawn { (n : ℕ) → AreEventsBelow n (families_left trees.now state.left.items)
        → let made = few_of state.order (left_of n 0 (families_left trees.now state.left.items)) in
        Draws (IsCounted made) made ops.old ops.new result }
{
    if is_dead(&state.left) {
        return Ok(NodeId::new(0));
    }
    let Some(event) = least_event(trees, &state.left) else {
        return Ok(NodeId::new(1));
    };
    if let Some(number) = walked.recall(&state) {
        return Ok(number);
    }
    let order = state.order;
    let without = halves(alloc, trees, event, &state.left, false)?;
    let lo = walk(
        alloc,
        ops,
        walked,
        trees,
        State {
            left: without,
            order,
        },
    )?;
    if is_spent(order) {
        return walked.remember(state, lo);
    }
    let with = halves(alloc, trees, event, &state.left, true)?;
    let order = one_fewer(order);
    let hi = walk(alloc, ops, walked, trees, State { left: with, order })?;
    let made = ops.node(event, lo, hi)?;
    walked.remember(state, made)
}

// Whether no event is left to take.
fn is_spent(order: Option<u32>) -> bool
    ensures yes { result ≡ true → order ≡ Some 0 }
    ensures no { result ≡ false → order ≡ Some 0 → ⊥ }
{
    match order {
        None => false,
        Some(most) => most == 0,
    }
}

// At most how many events are left to take after one.
fn one_fewer(order: Option<u32>) -> Option<u32>
    ensures { result ≡ fewer order }
{
    match order {
        None => None,
        Some(most) => Some(most.saturating_sub(1)),
    }
}
