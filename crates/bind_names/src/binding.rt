//! The call that binds a tree.

ghost use Rattle.std.specs.Prelude.{List};
ghost use Rattle.hierarchy.specs.Finding.{IsSomeTree};
ghost use Rattle.hierarchy.specs.Models.{RootedModel};
ghost use Rattle.hierarchy.specs.Tie.{IsTreeOf};
ghost use Rattle.hierarchy.specs.Units.{UnitPath};
ghost use Rattle.source_meaning.specs.Binding.{BindsTo};

use crate::lists::bound_of;
use crate::rules::settled;
use ar_base::RuleFault;
use bind_scopes::Scopes;
use hierarchy::Tree;
use source_meaning::Bound;
use std::alloc::Global;

/// The bound forms of a tree: its variables with the values of their `init` and `reset`, its
/// assertions, events and observers, by numbers, and the texts of symbols and canonical paths.
///
/// Refused with the least broken rule of L10 to L13, at the earliest place where it is broken, and
/// never for a limit.
pub fn bind(alloc: Global, tree: &Tree) -> Result<Bound, RuleFault>
    requires { IsSomeTree tree.now }
    ensures { (m : RootedModel) (units : List UnitPath) → IsTreeOf m units tree.now
        → BindsTo (record { model = m; units = units }) result }
{
    let scopes = Scopes::new(alloc, tree)?;
    let values = settled(alloc, &scopes)?;
    let bound = bound_of(alloc, &scopes, &values)?;
    Ok(bound)
}
