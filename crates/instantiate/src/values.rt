//! The values in force: those of the outermost unit that sets them.

ghost use Rattle.std.specs.Prelude.{◌≡◌, List, map, Some, IfOk};
ghost use Rattle.class_table.specs.Members.{NamedMember};
ghost use Rattle.class_table.specs.declared.tables.Classes.{Classes as Table};
ghost use Rattle.hierarchy.specs.Models.{RootedModel};
ghost use Rattle.hierarchy.specs.Units.{UnitPath, Thing};
ghost use Rattle.hierarchy.specs.Settings.{target_word_of, target_in, declared_in};
ghost use Rattle.ar_syntax.specs.declared.expressions.RawExpr.{RawExpr};
ghost use Rattle.hierarchy.specs.Tie.{IsThingNode, HasAttribute};
ghost use Rattle.hierarchy.specs.Tie.{AreOutlines};
ghost use Rattle.instantiate.specs.SettingPlaces.{TellsSettings};

use crate::outermost::outermost;
use crate::setting_places::SettingPlaces;
use ar_base::Memory;
use ar_syntax::Word;
use hierarchy::{Attribute, MemNode, Outline, Source};
use std::alloc::Global;

/// The value in force of a thing that is set by this target: what the outermost unit sets, else what its own member
/// says, in the setting of this place, if in one.
pub(crate) fn value_of(
    alloc: Global,
    settings: &SettingPlaces,
    outlines: &[Outline],
    node: MemNode,
    target: Vec<Word>,
    own: Option<u32>,
) -> Result<Attribute, Memory>
    ensures { (m : RootedModel) (units : List UnitPath) (classes : Table) (t : Thing)
        (g : NamedMember) (value : RawExpr)
        → AreOutlines m units classes outlines.now → TellsSettings m settings.now
        → IsThingNode m units t g node
        → target_in g.name g.kind ≡ Some (map target_word_of target.items)
        → declared_in t.unit g.site g.kind
        ≡ Some (record { unit = t.unit; site = g.site; setting = own; value = value })
        → IfOk result (HasAttribute m units t) }
{
    match outermost(alloc, settings, outlines, node.unit, target)? {
        Some(set) => Ok(set),
        None => Ok(Attribute {
            from: node.unit,
            source: Source {
                body: node.source.body,
                member: node.source.member,
                setting: own,
            },
        }),
    }
}
