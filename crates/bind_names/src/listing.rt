//! The events of a tree by numbers.

ghost use Rattle.std.specs.Prelude.{◌≡◌, List, [], map, IfOk};
ghost use Rattle.ar_base.specs.Lists.{Along};
ghost use Rattle.hierarchy.specs.Models.{RootedModel};
ghost use Rattle.hierarchy.specs.Units.{UnitPath};
ghost use Rattle.hierarchy.specs.Listing.{events as events_of};
ghost use Rattle.hierarchy.specs.Paths.{thing_path};
ghost use Rattle.hierarchy.specs.Tie.{IsTreeOf};
ghost use Rattle.bind_scopes.specs.Scopes.{HasScopes};
ghost use Rattle.bind_names.specs.Settled.{AreSettled};
ghost use Rattle.bind_names.specs.Bound.{IsBoundEvent};
ghost use Rattle.bind_names.specs.Gathering.{HasWays};

use crate::all_values::Values;
use crate::gathering::add_ways;
use crate::hiding::hidden_events;
use crate::paths::text_there;
use ar_base::{Memory, Text};
use bind_scopes::Scopes;
use gts_core::DeclaredEvent;
use std::alloc::Global;

/// The events of a tree, in its order, where these are their canonical paths: each with its path and
/// unit, whether a `hide` clause names it, and its transitions and synchronisations in member order.
/// The error is want of memory.
pub fn events(
    alloc: Global,
    scopes: &Scopes<'_>,
    values: &Values,
    paths: &[Text],
) -> Result<Vec<DeclaredEvent>, Memory>
    requires { HasScopes scopes.now }
    ensures { (m : RootedModel) (units : List UnitPath) → AreSettled m units scopes.now values.now
        → paths.now ≡ map (thing_path m) (events_of m units)
        → IfOk result (λ v. Along (IsBoundEvent m units scopes.now.tree.now) (events_of m units)
        v.items) }
{
    let mut events = heads(alloc, scopes, paths)?;
    add_ways(&mut events, alloc, scopes, values)?;
    Ok(events)
}

// The events of a tree without their ways, where these are their canonical paths.
fn heads(alloc: Global, scopes: &Scopes<'_>, paths: &[Text]) -> Result<Vec<DeclaredEvent>, Memory>
    requires { HasScopes scopes.now }
    ensures { (m : RootedModel) (units : List UnitPath) → IsTreeOf m units scopes.now.tree.now
        → paths.now ≡ map (thing_path m) (events_of m units)
        → IfOk result (λ v. Along (HasWays m units scopes.now.tree.now []) (events_of m units)
        v.items) }
{
    let hidden = hidden_events(alloc, scopes)?;
    let mut events = Vec::new(alloc);
    for (place, node) in scopes.tree.events.iter().enumerate() {
        let text = String::from_str(alloc, text_there(paths, place))?;
        let path = Text::new(text);
        let ways = Vec::new(alloc);
        events.push(DeclaredEvent {
            path,
            unit: node.unit,
            hidden: hidden[place],
            ways,
        })?;
    }
    Ok(events)
}
