//! The way up from a unit to the outermost unit that sets a target.

ghost use Rattle.std.specs.Prelude.{List, map, Option, IfOk};
ghost use Rattle.ar_base.specs.Lists.{Stands};
ghost use Rattle.class_table.specs.Members.{Site};
ghost use Rattle.class_table.specs.declared.tables.Classes.{Classes as Table};
ghost use Rattle.hierarchy.specs.Models.{RootedModel};
ghost use Rattle.hierarchy.specs.Units.{UnitPath};
ghost use Rattle.hierarchy.specs.Settings.{target_word_of, set_by, outermost as outermost_of};
ghost use Rattle.hierarchy.specs.Tie.{IsSetAt, AreOutlines};
ghost use Rattle.instantiate.specs.InForce.{AreAttribute};
ghost use Rattle.instantiate.specs.SettingPlaces.{TellsSettings};

use crate::setting_places::SettingPlaces;
use ar_base::{Cap, Memory, UnitId};
use ar_syntax::Word;
use hierarchy::{Attribute, Outline, Source};
use std::alloc::Global;

/// What the outermost unit sets for the target, which is named from inside the unit. No unit is deeper than there are
/// units, so that the way up ends.
pub fn outermost(
    alloc: Global,
    settings: &SettingPlaces,
    outlines: &[Outline],
    unit: UnitId,
    mut target: Vec<Word>,
) -> Result<Option<Attribute>, Memory>
    ensures { (m : RootedModel) (units : List UnitPath) (classes : Table) (u : UnitPath)
        → AreOutlines m units classes outlines.now → TellsSettings m settings.now
        → Stands units unit.n u
        → IfOk result (AreAttribute units (outermost_of m u (map target_word_of target.items))) }
{
    let mut at = unit;
    let mut found = None;
    for _level in 0..outlines.len() {
        let Some(outline) = outlines.get(at.n as usize) else {
            return Ok(found);
        };
        let Some(owner) = outline.owner else {
            return Ok(found);
        };
        if let Some(attribute) = set_here(alloc, settings, outline, owner, &target)? {
            found = Some(attribute);
        }
        target.insert(0, Word::Name(outline.name))?;
        at = owner;
    }
    Ok(found)
}

// What the declaration of a unit sets for the target, which is read in the unit's owner.
fn set_here(
    alloc: Global,
    settings: &SettingPlaces,
    outline: &Outline,
    owner: UnitId,
    target: &[Word],
) -> Result<Option<Attribute>, Memory>
    ensures { (m : RootedModel) (units : List UnitPath) (above : UnitPath) (site : Option Site)
        → TellsSettings m settings.now → IsSetAt site outline.now.set_at
        → Stands units owner.n above
        → IfOk result (AreAttribute units (set_by m above site (map target_word_of target.now))) }
{
    let Some(site) = outline.set_at else {
        return Ok(None);
    };
    match settings.find(alloc, site, target)? {
        None => Ok(None),
        Some(place) => match u32::try_from(place) {
            Err(_) => Err(Memory::from(Cap::Settings)),
            Ok(setting) => Ok(Some(Attribute {
                from: owner,
                source: Source {
                    body: site.0,
                    member: site.1,
                    setting: Some(setting),
                },
            })),
        },
    }
}
