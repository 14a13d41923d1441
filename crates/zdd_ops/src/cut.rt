//! Two families at the least event of both.

ghost use Rattle.std.specs.Prelude.{◌≡◌, ◌≤◌, ◌<◌, ◌⊎◌, IfSome};
ghost use Rattle.zdd_nodes.specs.Nodes.{IsFamilyNumber};
ghost use Rattle.zdd_ops.specs.Cuts.{AreCofactors, IsLeftOf, ArePassed};

use crate::memo::Join;
use ar_base::EventId;
use zdd_nodes::{NodeId, Store};

/// The least event of two families, and the halves of both at it. A family without the event is its own lower half.
#[derive(Clone, Copy)]
pub struct Cut {
    /// The least event.
    pub event: EventId,
    /// The sets of the first without the event.
    pub f0: NodeId,
    /// The sets of the first with the event, which is taken off.
    pub f1: NodeId,
    /// The sets of the second without the event.
    pub g0: NodeId,
    /// The sets of the second with the event, which is taken off.
    pub g1: NodeId,
}

/// Cuts two families, of which one at least is a node, at their least event.
pub fn cut_at(store: &Store, f: NodeId, g: NodeId) -> Cut
    requires f_in { IsFamilyNumber store.now f.n }
    requires g_in { IsFamilyNumber store.now g.n }
    requires some { (2 ≤ f.n) ⊎ (2 ≤ g.n) }
    ensures { AreCofactors store.now.families f.n g.n result }
{
    let none = NodeId::new(0);
    match store.split(f) {
        None => match store.split(g) {
            None => unreachable!(),
            Some((event, g0, g1)) => cut_into(event, f, none, g0, g1),
        },
        Some((event, f0, f1)) => match store.split(g) {
            None => cut_into(event, f0, f1, g, none),
            Some((other, g0, g1)) => {
                if event.n < other.n {
                    return cut_into(event, f0, f1, g, none);
                }
                if other.n < event.n {
                    return cut_into(other, f, none, g0, g1);
                }
                cut_into(event, f0, f1, g0, g1)
            }
        },
    }
}

/// The event, and the halves of the first and of the second.
fn cut_into(event: EventId, f0: NodeId, f1: NodeId, g0: NodeId, g1: NodeId) -> Cut
    ensures { result ≡ record { event = event; f0 = f0; f1 = f1; g0 = g0; g1 = g1 } }
{
    Cut {
        event,
        f0,
        f1,
        g0,
        g1,
    }
}

/// The lower half of g, where its least event is below all events of f.
fn next_lower(store: &Store, f: NodeId, g: NodeId) -> Option<NodeId>
    requires f_in { IsFamilyNumber store.now f.n }
    requires g_in { IsFamilyNumber store.now g.n }
    ensures passed { IfSome result (λ r. IsLeftOf store.now.families f.n g.n r.n) }
    ensures less { IfSome result (λ r. r.n < g.n) }
{
    if f.n == 0 {
        return None;
    }
    let (event, lower, _) = store.split(g)?;
    match store.split(f) {
        None => Some(lower),
        Some((other, _, _)) => {
            if event.n < other.n {
                return Some(lower);
            }
            None
        }
    }
}

/// What is left of g where those of its sets are dropped that have an event below all events of f: its lower half, and
/// the lower half of that, as long as f has no such event.
pub fn pass(store: &Store, f: NodeId, g: NodeId) -> NodeId
    requires f_in { IsFamilyNumber store.now f.n }
    requires g_in { IsFamilyNumber store.now g.n }
    ensures { IsLeftOf store.now.families f.n g.n result.n }
{
    let mut left = g;
    while let Some(lower) = next_lower(store, f, left) {
        left = lower;
    }
    left
}

/// Two families that an operation is made of.
#[derive(Clone, Copy)]
pub struct Operands {
    /// The first.
    pub f: NodeId,
    /// The second.
    pub g: NodeId,
}

/// What is left of f and of g where those sets are dropped that have an event below all events of the other family.
fn pass_both(store: &Store, f: NodeId, g: NodeId) -> Operands
    requires f_in { IsFamilyNumber store.now f.n }
    requires g_in { IsFamilyNumber store.now g.n }
    ensures { ArePassed store.now.families Join.Meet f.n g.n result }
{
    let mut left = Operands { f, g };
    loop {
        if let Some(lower) = next_lower(store, left.f, left.g) {
            left.g = lower;
        } else if let Some(lower) = next_lower(store, left.g, left.f) {
            left.f = lower;
        } else {
            return left;
        }
    }
}

/// What is left of f and of g for a join: where a join drops sets that have an event below all events of the other family,
/// they are dropped at once.
pub fn pass_for(store: &Store, join: Join, f: NodeId, g: NodeId) -> Operands
    requires f_in { IsFamilyNumber store.now f.n }
    requires g_in { IsFamilyNumber store.now g.n }
    ensures { ArePassed store.now.families join f.n g.n result }
{
    match join {
        Join::Union => Operands { f, g },
        Join::Meet => pass_both(store, f, g),
        Join::Minus => {
            let g = pass(store, f, g);
            Operands { f, g }
        }
    }
}
