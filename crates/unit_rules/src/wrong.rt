//! The first setting that sets nothing, or what an earlier one sets.

ghost use Rattle.std.specs.Prelude.{◌≡◌, ◌<◌, ◌^◌, ◌↔◌, ℕ, false, List, Some, IfOk, IfSome, IfNone, length};
ghost use Rattle.ar_base.specs.Lists.{Stands};
ghost use Rattle.ar_base.specs.declared.places.Place.{Place as PlaceOf};
ghost use Rattle.ar_syntax.specs.declared.members.Setting.{Setting as SettingOf};
ghost use Rattle.class_table.specs.Earliest.{IsEarliest};
ghost use Rattle.class_table.specs.TablesInside.{HoldsDeclared, site_of};
ghost use Rattle.class_table.specs.declared.tables.Classes.{Classes as Table};
ghost use Rattle.hierarchy.specs.Models.{RootedModel};
ghost use Rattle.hierarchy.specs.Settings.{settings_at};
ghost use Rattle.hierarchy.specs.Units.{UnitPath, set_at_of};
ghost use Rattle.hierarchy.specs.Tie.{AreOutlines, IsOutline};
ghost use Rattle.unit_rules.specs.Rules.{BreaksSetting};
ghost use Rattle.unit_walks.specs.Settling.{AreOutcomes};
ghost use Rattle.unit_rules.specs.Settables.{AreSettables};
ghost use Rattle.unit_rules.specs.Wrong.{IsSetBefore, BreaksAt, BreaksIn, BreaksSettings};

use crate::left::WrongSearch;
use crate::repeats::Targets;
use crate::settables::Settables;
use crate::sites::settings_of;
use crate::targets::is_target;
use ar_base::{BodyId, Memory, Place, UnitId};
use ar_syntax::Setting;
use class_table::earliest::earliest;
use class_table::{Classes, owned_at};
use hierarchy::Outline;
use std::alloc::Global;
use unit_walks::Walks;

/// The earliest place where rule L9 is broken in these units: that of a setting whose words lead
/// from its unit to nothing that they may set, or of one whose words an earlier setting of the same
/// declaration has. None where there is no such setting. The only error is want of memory.
pub fn first_wrong_setting(
    alloc: Global,
    classes: &Classes,
    outlines: &[Outline],
    walks: &Walks,
) -> Result<Option<Place>, Memory>
    requires { length outlines.now < 2 ^ 32 }
    ensures { (m : RootedModel) (units : List UnitPath)
        → AreOutlines m units classes.now outlines.now
        → AreOutcomes m units walks.now → IfOk result (IsEarliest (BreaksSetting m units)) }
{
    let settables = Settables::new(alloc, classes, outlines)?;
    let mut search = WrongSearch::new(alloc);
    for (place, outline) in outlines.iter().enumerate() {
        let unit = UnitId::new(place as u32);
        if let Some((site, settings)) = settings_in(classes, outline) {
            let tested = search.to_test(site, settings);
            let wrong = wrong_among(alloc, &settables, outlines, walks, unit, tested)?;
            search.add(site, tested, wrong)?;
        }
    }
    Ok(search.found)
}

// The declaration whose settings hold in the unit, with the settings, where there is one.
fn settings_in<'a>(
    classes: &'a Classes,
    outline: &Outline,
) -> Option<((BodyId, u32), &'a [Setting])>
    ensures some { (m : RootedModel) (units : List UnitPath) (u : UnitPath)
        → HoldsDeclared m.declared classes.now → IsOutline m units u outline.now
        → IfSome result (λ f. (set_at_of u ≡ Some (site_of f.0)) × (f.1.now ≡ settings_at m (site_of f.0))) }
    ensures none { (m : RootedModel) (units : List UnitPath) (u : UnitPath)
        → HoldsDeclared m.declared classes.now → IsOutline m units u outline.now
        → IfNone result ((p : PlaceOf) → BreaksSettings m u p → ⊥) }
{
    let site = outline.set_at?;
    let owned = owned_at(&classes.bodies, site)?;
    Some((site, settings_of(owned)))
}

// The place of this setting, which holds in the unit, if it is wrong; it is new where no earlier
// one has its target.
fn wrong_here(
    settables: &Settables,
    outlines: &[Outline],
    walks: &Walks,
    unit: UnitId,
    setting: &Setting,
    is_new: bool,
) -> Option<Place>
    ensures { (m : RootedModel) (units : List UnitPath) (classes : Table) (u : UnitPath)
        → AreOutlines m units classes outlines.now → AreOutcomes m units walks.now
        → AreSettables m units settables.now → Stands units unit.n u
        → (settings : List SettingOf) (k : ℕ) → (is_new ≡ false) ↔ IsSetBefore settings k
        → IsEarliest (BreaksAt m u settings k setting.now) result }
{
    if !is_new {
        return Some(setting.at);
    }
    if !is_target(settables, outlines, walks, unit, &setting.target) {
        return Some(setting.at);
    }
    None
}

// The earliest place of a wrong setting among these, which hold in the unit.
fn wrong_among(
    alloc: Global,
    settables: &Settables,
    outlines: &[Outline],
    walks: &Walks,
    unit: UnitId,
    settings: &[Setting],
) -> Result<Option<Place>, Memory>
    ensures { (m : RootedModel) (units : List UnitPath) (classes : Table) (u : UnitPath)
        → AreOutlines m units classes outlines.now → AreOutcomes m units walks.now
        → AreSettables m units settables.now → Stands units unit.n u
        → IfOk result (IsEarliest (BreaksIn m u settings.now)) }
{
    let mut targets = Targets::new(alloc);
    let mut first = None;
    for place in 0..settings.len() {
        let setting = &settings[place];
        let is_new = targets.meet(alloc, &setting.target)?;
        let wrong = wrong_here(settables, outlines, walks, unit, setting, is_new);
        first = earliest(first, wrong);
    }
    Ok(first)
}
