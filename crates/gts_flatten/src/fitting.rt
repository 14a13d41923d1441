//! The limit on the nodes of a flat system's expressions.

ghost use Rattle.std.specs.Prelude.{◌≡◌, ℕ, List, map, min};
ghost use Rattle.ar_base.specs.Stages.{Fits};
ghost use Rattle.ar_base.specs.StagesInside.{Meets};
ghost use Rattle.ar_base.specs.declared.counts.Count.TheVariants.{ExpressionNodes};
ghost use Rattle.ar_meaning.specs.Systems.{System};
ghost use Rattle.gts_core.specs.Bound.{declared_from, member_of};
ghost use Rattle.gts_flatten.specs.Bounds.{IsSystemOf, declared_nodes, members_nodes, observers_nodes};
ghost use Rattle.gts_flatten.specs.Sizes.{system_nodes};

use crate::acts::{act_nodes, acts_nodes};
use crate::sizes::{TOO_MANY, nodes, sum};
use ar_base::{Count, RuleFault};
use gts_core::{Act, DeclaredEvent, DeclaredWay, Observer};

/// Refuses where the guards, actions, assertions and observers of the flat system of these forms
/// have more nodes together than the limit, each copy counted. Nothing is copied before.
pub fn fit_nodes(
    events: &[DeclaredEvent],
    assertions: &[Act],
    observers: &[Observer],
) -> Result<(), RuleFault>
    ensures { (system : System ℕ)
        → IsSystemOf events.now assertions.now observers.now system
        → Meets (Fits ExpressionNodes system_nodes) (λ _ _. Unit {0}) system result }
{
    let own = events_nodes(events);
    let flows = acts_nodes(assertions, 0);
    let seen = observer_nodes(observers);
    if sum(own, sum(flows, seen)) >= TOO_MANY {
        return Err(RuleFault::Limit(Count::ExpressionNodes));
    }
    Ok(())
}

// The nodes of the transitions of events.
fn events_nodes(events: &[DeclaredEvent]) -> u64
    ensures { result ≡ min 1000001 (declared_nodes (declared_from 0 events.now)) }
{
    let mut total = 0;
    for event in events {
        total = sum(total, ways_nodes(&event.ways));
    }
    total
}

// The same of the ways of an event; a synchronisation has no expressions of its own.
fn ways_nodes(ways: &[DeclaredWay]) -> u64
    ensures { result ≡ min 1000001 (members_nodes (map member_of ways.now)) }
{
    let mut total = 0;
    for way in ways {
        let more = match way {
            DeclaredWay::Local(guard, action) => sum(nodes(guard), act_nodes(action, 0)),
            DeclaredWay::Sync(_, _) => 0,
        };
        total = sum(total, more);
    }
    total
}

// The nodes of the values of observers.
fn observer_nodes(observers: &[Observer]) -> u64
    ensures { result ≡ min 1000001 (observers_nodes observers.now) }
{
    let mut total = 0;
    for observer in observers {
        total = sum(total, nodes(&observer.value));
    }
    total
}
