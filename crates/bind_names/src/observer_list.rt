//! The observers of a tree by numbers.

ghost use Rattle.std.specs.Prelude.{◌≡◌, ◌<◌, List, length, map, IfOk};
ghost use Rattle.ar_base.specs.Lists.{Along, IsOneOf};
ghost use Rattle.hierarchy.specs.Listing.{observers as observers_of};
ghost use Rattle.hierarchy.specs.Models.{RootedModel};
ghost use Rattle.hierarchy.specs.Paths.{prefix};
ghost use Rattle.hierarchy.specs.Tie.{IsPlainNode};
ghost use Rattle.hierarchy.specs.Units.{UnitPath, Thing};
ghost use Rattle.bind_scopes.specs.Scopes.{HasScopes};
ghost use Rattle.bind_names.specs.Settled.{AreSettled};
ghost use Rattle.bind_names.specs.ListBound.{IsBoundObserver};

use crate::all_values::Values;
use crate::numbered_expressions::expression;
use crate::thing_path;
use crate::value_rules::observed_at;
use ar_base::{Memory, Text};
use bind_scopes::Scopes;
use gts_core::Observer;
use hierarchy::MemNode;
use std::alloc::Global;

/// The observers of a tree, in its order, where this is what stands before names in its units: each
/// with its path, the kind of its type and its expression. The error is want of memory.
pub fn observers(
    alloc: Global,
    scopes: &Scopes<'_>,
    values: &Values,
    prefixes: &[Text],
) -> Result<Vec<Observer>, Memory>
    requires { HasScopes scopes.now }
    ensures { (m : RootedModel) (units : List UnitPath) → AreSettled m units scopes.now values.now
        → prefixes.now ≡ map (prefix m) units
        → IfOk result (λ v. Along (IsBoundObserver m units scopes.now.tree.now)
        (observers_of m units) v.items) }
{
    let mut observers = Vec::new(alloc);
    for node in &scopes.tree.observers {
        let observer = observer_of(alloc, scopes, values, prefixes, node)?;
        observers.push(observer)?;
    }
    Ok(observers)
}

// The observer of a node of the tree by numbers.
fn observer_of(
    alloc: Global,
    scopes: &Scopes<'_>,
    values: &Values,
    prefixes: &[Text],
    node: &MemNode,
) -> Result<Observer, Memory>
    requires scopes { HasScopes scopes.now }
    requires listed { IsOneOf scopes.now.tree.now.observers.items node.now }
    requires in_range { node.now.unit.n < length scopes.now.tree.now.units.items }
    ensures { (m : RootedModel) (units : List UnitPath) (t : Thing)
        → AreSettled m units scopes.now values.now → prefixes.now ≡ map (prefix m) units
        → IsPlainNode m units t node.now → IsOneOf (observers_of m units) t
        → IfOk result (IsBoundObserver m units scopes.now.tree.now t) }
{
    let Some((form, written)) = observed_at(&scopes.tree.classes, node.source) else {
        unreachable!()
    };
    let Some(kind) = scopes.kind_of_type(form) else {
        unreachable!()
    };
    let value = expression(alloc, scopes, values, node.unit, written)?;
    let path = thing_path(alloc, scopes.tree, prefixes, node)?;
    Ok(Observer { path, kind, value })
}
