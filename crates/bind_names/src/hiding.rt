//! Events that hide clauses name.

ghost use Rattle.std.specs.Prelude.{◌≡◌, ◌<◌, false, List, length, map, replicate};
ghost use Rattle.std.specs.Prelude.{Some, IfOk};
ghost use Rattle.std.specs.List.{flat_map};
ghost use Rattle.ar_base.specs.Lists.{Stands};
ghost use Rattle.class_table.specs.declared.tables.Owned.TheVariants.{Plain};
ghost use Rattle.class_table.specs.Members.{owned_at as declared_at};
ghost use Rattle.class_table.specs.TablesInside.{site_of};
ghost use Rattle.hierarchy.specs.Models.{RootedModel};
ghost use Rattle.hierarchy.specs.Units.{UnitPath};
ghost use Rattle.hierarchy.specs.Walks.{Finds, is_event};
ghost use Rattle.hierarchy.specs.Listing.{events as events_of, form_of};
ghost use Rattle.hierarchy.specs.Tie.{IsTreeOf};
ghost use Rattle.bind_scopes.specs.Scopes.{HasScopes};
ghost use Rattle.bind_names.specs.Hiding.{HidesIn, Marks, AreHidden};

use crate::members::sites_of;
use ar_base::{BodyId, Memory, UnitId, mark};
use ar_syntax::{Member, Path};
use bind_scopes::Scopes;
use class_table::{Owned, owned_at};
use std::alloc::Global;

/// Of each event of a tree, whether a `hide` clause of some unit names it. The error is want of
/// memory.
pub(crate) fn hidden_events(alloc: Global, scopes: &Scopes<'_>) -> Result<Vec<bool>, Memory>
    requires { HasScopes scopes.now }
    ensures { (m : RootedModel) (units : List UnitPath) → IsTreeOf m units scopes.now.tree.now
        → IfOk result (λ v. AreHidden m units v.items) }
{
    let mut marks = unset(alloc, scopes.tree.events.len())?;
    for place in 0..scopes.tree.units.len() {
        let unit = UnitId::new(place as u32);
        let sites = sites_of(scopes.tree, unit);
        hide_in(&mut marks, scopes, unit, sites);
    }
    Ok(marks)
}

// As many marks, none of them set.
fn unset(alloc: Global, count: usize) -> Result<Vec<bool>, Memory>
    ensures { IfOk result (λ v. v.items ≡ replicate count false) }
{
    let mut marks = Vec::new(alloc);
    for _ in 0..count {
        marks.push(false)?;
    }
    Ok(marks)
}

// Marks the event that a path names.
fn hide(marks: &mut Vec<bool>, scopes: &Scopes<'_>, unit: UnitId, path: &Path)
    requires scopes { HasScopes scopes.now }
    requires in_range { unit.n < length scopes.now.tree.now.units.items }
    ensures { (m : RootedModel) (units : List UnitPath) (u : UnitPath)
        → IsTreeOf m units scopes.now.tree.now → Stands units unit.n u
        → Marks (events_of m units) (Finds m is_event u path.now) marks.old.items marks.new.items }
{
    match scopes.event_at(unit, path.start, &path.names) {
        Some(event) => mark(marks, event.n),
        None => {}
    }
}

// Marks the event that a member hides.
fn hide_by(marks: &mut Vec<bool>, scopes: &Scopes<'_>, unit: UnitId, member: &Member)
    requires scopes { HasScopes scopes.now }
    requires in_range { unit.n < length scopes.now.tree.now.units.items }
    ensures { (m : RootedModel) (units : List UnitPath) (u : UnitPath)
        → IsTreeOf m units scopes.now.tree.now → Stands units unit.n u
        → Marks (events_of m units) (HidesIn m u (form_of (Some (Plain member.now))))
        marks.old.items marks.new.items }
{
    match member {
        Member::Hide(path) => hide(marks, scopes, unit, path),
        _ => {}
    }
}

// Marks the event that the member at a site hides.
fn hide_at(marks: &mut Vec<bool>, scopes: &Scopes<'_>, unit: UnitId, site: (BodyId, u32))
    requires scopes { HasScopes scopes.now }
    requires in_range { unit.n < length scopes.now.tree.now.units.items }
    ensures { (m : RootedModel) (units : List UnitPath) (u : UnitPath)
        → IsTreeOf m units scopes.now.tree.now → Stands units unit.n u
        → Marks (events_of m units)
        (HidesIn m u (form_of (declared_at m.declared (site_of site))))
        marks.old.items marks.new.items }
{
    match owned_at(&scopes.tree.classes.bodies, site) {
        None => {}
        Some(Owned::Nested(_, _, _)) => {}
        Some(Owned::Plain(member)) => hide_by(marks, scopes, unit, member),
    }
}

// Marks the events that the members at these sites hide.
fn hide_in(marks: &mut Vec<bool>, scopes: &Scopes<'_>, unit: UnitId, sites: &[(BodyId, u32)])
    requires scopes { HasScopes scopes.now }
    requires in_range { unit.n < length scopes.now.tree.now.units.items }
    ensures { (m : RootedModel) (units : List UnitPath) (u : UnitPath)
        → IsTreeOf m units scopes.now.tree.now → Stands units unit.n u
        → Marks (events_of m units)
        (HidesIn m u (flat_map (λ s. form_of (declared_at m.declared s)) (map site_of sites.now)))
        marks.old.items marks.new.items }
{
    for site in sites {
        hide_at(marks, scopes, unit, *site);
    }
}
