//! The values of all parameters and variables of a tree.

ghost use Rattle.std.specs.Prelude.{List, IfOk};
ghost use Rattle.ar_base.specs.Lists.{Stands, Along};
ghost use Rattle.ar_syntax.specs.declared.paths.Path.{Path};
ghost use Rattle.hierarchy.specs.Models.{RootedModel};
ghost use Rattle.hierarchy.specs.Units.{UnitPath};
ghost use Rattle.hierarchy.specs.Listing.{parameters};
ghost use Rattle.source_meaning.specs.BoundExpressions.{IsLeafFor};
ghost use Rattle.source_meaning.specs.Tested.{Everything, MayName};
ghost use Rattle.bind_scopes.specs.Scopes.{AreScopes, HasScopes};
ghost use Rattle.bind_names.specs.Leaves.{leaf_in};
ghost use Rattle.bind_names.specs.Values.{AreNamesKept, IsParameterValue, IsValued};
ghost use Rattle.bind_names.specs.declared.leaves.UnitLeaves.{UnitLeaves};

use crate::computing::{parameter_values, variable_values};
use crate::outside_domains::{outside_parameters, outside_variables};
use ar_base::{Memory, Place};
use bind_scopes::Scopes;
use class_table::earliest::earliest;
use domains::Value;
use std::alloc::Global;

/// The values of a tree, which hold before anything happens.
#[derive(Drop)]
pub struct Values {
    /// The values of the parameters, in the tree's order; false for one that has none.
    pub parameters: Vec<Value>,
    /// The values of the `init` and `reset` of the variables, in the tree's order.
    pub variables: Vec<Value>,
}

/// The values of all parameters and variables of a tree, or the earliest place of a value in force
/// that is outside its domain.
///
/// Each is computed once. The answer tells something only where every path names what it is to name
/// and every expression has the kind that is wanted of it, as L10 and L11 ask. The outer error is
/// want of memory.
pub fn valued(alloc: Global, scopes: &Scopes<'_>) -> Result<Result<Values, Place>, Memory>
    requires { HasScopes scopes.now }
    ensures { (m : RootedModel) (units : List UnitPath) → AreScopes m units scopes.now
        → AreNamesKept m units → IfOk result (IsValued m units scopes.now.tree.now) }
{
    let parameters = parameter_values(alloc, scopes)?;
    let variables = variable_values(alloc, scopes, &parameters)?;
    let first = outside_parameters(scopes, &parameters);
    match earliest(first, outside_variables(scopes, &variables)) {
        Some(place) => Ok(Err(place)),
        None => Ok(Ok(Values {
            parameters,
            variables,
        })),
    }
}

/// A path that may be named where an expression stands has what it stands for as its leaf, where
/// the values of all parameters are known.
pub fn right_leaves()
    ensures { (m : RootedModel) (units : List UnitPath) (u : UnitPath) (leaves : UnitLeaves)
        (p : Path) → AreScopes m units leaves.scopes.now → Stands units leaves.unit.n u
        → Along (IsParameterValue m) (parameters m units) leaves.parameters.now
        → MayName m u Everything p → IsLeafFor m units u p (leaf_in leaves p) }
{}
