//! The members of units.

ghost use Rattle.std.specs.Prelude.{◌≡◌, ◌<◌, List, length, map};
ghost use Rattle.ar_base.specs.Lists.{Stands};
ghost use Rattle.class_table.specs.TablesInside.{site_of};
ghost use Rattle.hierarchy.specs.Models.{RootedModel};
ghost use Rattle.hierarchy.specs.Units.{UnitPath, members_at};
ghost use Rattle.hierarchy.specs.Tie.{IsTreeOf};

use ar_base::{BodyId, UnitId};
use bind_scopes::members_of;
use hierarchy::Tree;

/// The members of a unit, by where they stand. Takes no memory.
pub(crate) fn sites_of(tree: &Tree, unit: UnitId) -> &[(BodyId, u32)]
    requires { unit.n < length tree.now.units.items }
    ensures { (m : RootedModel) (units : List UnitPath) (u : UnitPath) → IsTreeOf m units tree.now
        → Stands units unit.n u → map site_of result.now ≡ members_at m u }
{
    let node = &tree.units[unit.n as usize];
    members_of(&tree.classes, node.body)
}
