//! Names of events.

ghost use Rattle.std.specs.Prelude.{◌<◌, List, length};
ghost use Rattle.ar_base.specs.Lists.{Stands};
ghost use Rattle.ar_syntax.specs.declared.members.Member.{out-Member};
ghost use Rattle.class_table.specs.Earliest.{IsEarliest};
ghost use Rattle.hierarchy.specs.Models.{RootedModel};
ghost use Rattle.hierarchy.specs.Units.{UnitPath};
ghost use Rattle.hierarchy.specs.Tie.{IsTreeOf};
ghost use Rattle.bind_scopes.specs.Scopes.{HasScopes};
ghost use Rattle.bind_names.specs.Breaking.{IsNoEvent, PartNamesNoEvent, IsNoOwnEvent, BreaksEvent};

use crate::breaches::Rule;
use ar_base::{NameId, Place, UnitId};
use ar_syntax::{Member, Part, Path, PathStart};
use bind_scopes::Scopes;
use class_table::earliest::earliest;

/// The earliest place at which the member breaks the rule by a name of an event.
pub(crate) fn in_event(
    scopes: &Scopes<'_>,
    rule: Rule,
    unit: UnitId,
    member: &Member,
) -> Option<Place>
    requires scopes { HasScopes scopes.now }
    requires in_range { unit.n < length scopes.now.tree.now.units.items }
    ensures { (m : RootedModel) (units : List UnitPath) (u : UnitPath)
        → IsTreeOf m units scopes.now.tree.now → Stands units unit.n u
        → IsEarliest (BreaksEvent m rule u (out-Member member.now)) result }
{
    match rule {
        Rule::Names => match member {
            Member::Hide(path) => no_event(scopes, unit, path),
            Member::Sync(name, at, parts) => earliest(
                no_own_event(scopes, unit, *name, *at),
                no_event_in(scopes, unit, parts),
            ),
            Member::Local(name, at, _, _) => no_own_event(scopes, unit, *name, *at),
            _ => None,
        },
        Rule::Kinds => None,
        Rule::Targets => None,
    }
}

// The place of the path, where it names no event.
fn no_event(scopes: &Scopes<'_>, unit: UnitId, path: &Path) -> Option<Place>
    requires scopes { HasScopes scopes.now }
    requires in_range { unit.n < length scopes.now.tree.now.units.items }
    ensures { (m : RootedModel) (units : List UnitPath) (u : UnitPath)
        → IsTreeOf m units scopes.now.tree.now → Stands units unit.n u
        → IsEarliest (IsNoEvent m u path.now) result }
{
    match scopes.event_at(unit, path.start, &path.names) {
        Some(_) => None,
        None => Some(path.at),
    }
}

// The earliest place of a part that names no event.
fn no_event_in(scopes: &Scopes<'_>, unit: UnitId, parts: &[Part]) -> Option<Place>
    requires scopes { HasScopes scopes.now }
    requires in_range { unit.n < length scopes.now.tree.now.units.items }
    ensures { (m : RootedModel) (units : List UnitPath) (u : UnitPath)
        → IsTreeOf m units scopes.now.tree.now → Stands units unit.n u
        → IsEarliest (PartNamesNoEvent m u parts.now) result }
{
    let mut found = None;
    for part in parts {
        found = earliest(found, no_event(scopes, unit, &part.event));
    }
    found
}

// The place of the name, where it is no event of the unit.
fn no_own_event(scopes: &Scopes<'_>, unit: UnitId, name: NameId, at: Place) -> Option<Place>
    requires scopes { HasScopes scopes.now }
    requires in_range { unit.n < length scopes.now.tree.now.units.items }
    ensures { (m : RootedModel) (units : List UnitPath) (u : UnitPath)
        → IsTreeOf m units scopes.now.tree.now → Stands units unit.n u
        → IsEarliest (IsNoOwnEvent m u name at) result }
{
    let names = [name];
    match scopes.event_at(unit, PathStart::Here, &names) {
        Some(_) => None,
        None => Some(at),
    }
}
