//! Two families at the least event of both.

ghost use Rattle.std.specs.Prelude.{◌≡◌, ◌≤◌, ◌⊎◌};
ghost use Rattle.zdd_nodes.specs.Nodes.{IsFamilyNumber};
ghost use Rattle.least_families.specs.Halves.{AreLeastHalves};

use ar_base::EventId;
use zdd_nodes::{NodeId, Store};

/// The least event of two families, and the halves of both at it. A family without the event is its own lower half.
#[derive(Clone, Copy)]
pub(crate) struct Halves {
    /// The least event.
    pub(crate) event: EventId,
    /// The sets of the first without the event.
    pub(crate) f0: NodeId,
    /// The sets of the first with the event, which is taken off.
    pub(crate) f1: NodeId,
    /// The sets of the second without the event.
    pub(crate) g0: NodeId,
    /// The sets of the second with the event, which is taken off.
    pub(crate) g1: NodeId,
}

/// The halves of two families, of which one at least is a node, at their least event.
pub(crate) fn halves_of(store: &Store, f: NodeId, g: NodeId) -> Halves
    requires f_in { IsFamilyNumber store.now f.n }
    requires g_in { IsFamilyNumber store.now g.n }
    requires some { (2 ≤ f.n) ⊎ (2 ≤ g.n) }
    ensures { AreLeastHalves store.now.families f.n g.n result }
{
    let none = NodeId::new(0);
    match store.split(f) {
        None => match store.split(g) {
            None => unreachable!(),
            Some((event, g0, g1)) => at_event(event, f, none, g0, g1),
        },
        Some((event, f0, f1)) => match store.split(g) {
            None => at_event(event, f0, f1, g, none),
            Some((other, g0, g1)) => {
                if event.n < other.n {
                    return at_event(event, f0, f1, g, none);
                }
                if other.n < event.n {
                    return at_event(other, f, none, g0, g1);
                }
                at_event(event, f0, f1, g0, g1)
            }
        },
    }
}

// The event, and the halves of the first and of the second.
fn at_event(event: EventId, f0: NodeId, f1: NodeId, g0: NodeId, g1: NodeId) -> Halves
    ensures { result ≡ record { event = event; f0 = f0; f1 = f1; g0 = g0; g1 = g1 } }
{
    Halves {
        event,
        f0,
        f1,
        g0,
        g1,
    }
}
