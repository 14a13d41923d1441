//! The lists of bound forms.

ghost use Rattle.std.specs.Prelude.{List, IfOk};
ghost use Rattle.hierarchy.specs.Models.{RootedModel};
ghost use Rattle.hierarchy.specs.Units.{UnitPath};
ghost use Rattle.bind_scopes.specs.Scopes.{HasScopes};
ghost use Rattle.bind_names.specs.Settled.{AreSettled};
ghost use Rattle.bind_names.specs.Whole.{IsBoundOf};

use crate::all_values::Values;
use crate::path_bytes::path_bytes;
use crate::{
    assertions, event_paths, events, observers, prefixes, symbol_texts, unit_paths, variables,
};
use ar_base::{Cap, Memory};
use bind_scopes::Scopes;
use source_meaning::Bound;
use std::alloc::Global;

// The most bytes that the paths of a model may have together.
const MOST_PATH_BYTES: usize = 536_870_912;

/// The bound forms of a tree that keeps the rules of names, kinds, values and targets, where these
/// are its values. The error is want of memory.
pub(crate) fn bound_of(alloc: Global, scopes: &Scopes<'_>, values: &Values) -> Result<Bound, Memory>
    requires { HasScopes scopes.now }
    ensures { (m : RootedModel) (units : List UnitPath) → AreSettled m units scopes.now values.now
        → IfOk result (IsBoundOf m units) }
{
    let tree = scopes.tree;
    let symbols = symbol_texts(alloc, tree)?;
    if symbols.len() > u32::MAX as usize {
        return Err(Memory::from(Cap::Symbols));
    }
    if path_bytes(alloc, tree)? > MOST_PATH_BYTES {
        return Err(Memory::from(Cap::PathBytes));
    }
    let prefixes = prefixes(alloc, tree)?;
    let units = unit_paths(alloc, tree, &prefixes)?;
    let variables = variables(alloc, tree, values, &prefixes)?;
    let paths = event_paths(alloc, tree, &prefixes)?;
    let events = events(alloc, scopes, values, &paths)?;
    let assertions = assertions(alloc, scopes, values)?;
    let observers = observers(alloc, scopes, values, &prefixes)?;
    Ok(Bound {
        symbols,
        units,
        variables,
        events,
        assertions,
        observers,
    })
}
