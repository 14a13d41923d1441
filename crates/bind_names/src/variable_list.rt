//! The variables of a tree by numbers.

ghost use Rattle.std.specs.Prelude.{◌≡◌, List, map, IfOk};
ghost use Rattle.hierarchy.specs.Models.{RootedModel};
ghost use Rattle.hierarchy.specs.Paths.{prefix};
ghost use Rattle.hierarchy.specs.Tie.{IsTreeOf};
ghost use Rattle.hierarchy.specs.Units.{UnitPath};
ghost use Rattle.bind_names.specs.Values.{AreValues};
ghost use Rattle.bind_names.specs.ListBound.{AreBoundVariables};

use crate::all_values::Values;
use crate::thing_path;
use ar_base::{Memory, Text};
use gts_core::{Variable, copy_domain, value_at};
use hierarchy::Tree;
use std::alloc::Global;

/// The variables of a tree, in its order, with these values, where this is what stands before names
/// in its units: each with its path, unit, domain and sort. The error is want of memory.
pub fn variables(
    alloc: Global,
    tree: &Tree,
    values: &Values,
    prefixes: &[Text],
) -> Result<Vec<Variable>, Memory>
    ensures { (m : RootedModel) (units : List UnitPath) → IsTreeOf m units tree.now
        → AreValues m units tree.now values.now → prefixes.now ≡ map (prefix m) units
        → IfOk result (λ v. AreBoundVariables m units tree.now v.items) }
{
    let mut variables = Vec::new(alloc);
    for (place, node) in tree.variables.iter().enumerate() {
        let value = value_at(&values.variables, place);
        let path = thing_path(alloc, tree, prefixes, &node.node)?;
        let domain = copy_domain(&node.domain)?;
        variables.push(Variable {
            path,
            unit: node.node.unit,
            domain,
            is_state: node.is_state,
            value,
        })?;
    }
    Ok(variables)
}
