//! The transitions and synchronisations of events, from the members of units.

ghost use Rattle.std.specs.Prelude.{◌<◌, [], ◌∷◌, List, length, map, Some, OnOk};
ghost use Rattle.std.specs.List.{flat_map};
ghost use Rattle.ar_base.specs.Lists.{Stands, Along};
ghost use Rattle.ar_syntax.specs.declared.members.Member.{out-Member};
ghost use Rattle.class_table.specs.Members.{owned_at as declared_at};
ghost use Rattle.class_table.specs.TablesInside.{site_of};
ghost use Rattle.hierarchy.specs.Models.{RootedModel};
ghost use Rattle.hierarchy.specs.Units.{UnitPath};
ghost use Rattle.hierarchy.specs.Listing.{form_of, events as events_of};
ghost use Rattle.bind_scopes.specs.Scopes.{HasScopes};
ghost use Rattle.bind_names.specs.Settled.{AreSettled};
ghost use Rattle.bind_names.specs.Ways.{AreMembersOfUnit};
ghost use Rattle.bind_names.specs.Gathering.{HasWays, PutsWayIn, AddsMembers};
ghost use Rattle.bind_names.specs.Bound.{IsBoundEvent};

use crate::all_values::Values;
use crate::members::sites_of;
use crate::ways::way_of;
use ar_base::{BodyId, Cap, EventId, Memory, UnitId};
use ar_syntax::{Member, PathStart};
use bind_scopes::Scopes;
use class_table::{Owned, owned_at};
use gts_core::{DeclaredEvent, DeclaredWay};
use std::alloc::Global;

/// Gives each of the events of a tree, which have none, its transitions and synchronisations in member
/// order. The members of each unit are read once. The error is want of memory.
pub(crate) fn add_ways(
    events: &mut Vec<DeclaredEvent>,
    alloc: Global,
    scopes: &Scopes<'_>,
    values: &Values,
) -> Result<(), Memory>
    requires { HasScopes scopes.now }
    ensures { (m : RootedModel) (units : List UnitPath) → AreSettled m units scopes.now values.now
        → Along (HasWays m units scopes.now.tree.now []) (events_of m units) events.old.items
        → OnOk result (Along (IsBoundEvent m units scopes.now.tree.now) (events_of m units)
        events.new.items) }
{
    for place in 0..scopes.tree.units.len() {
        let unit = UnitId::new(place as u32);
        let sites = sites_of(scopes.tree, unit);
        add_all(events, alloc, scopes, values, unit, sites)?;
    }
    Ok(())
}

// Puts a way behind those of the event, where there is the event. For more ways than there are numbers
// the event's unit would have more members than all bodies may have together.
fn put(events: &mut Vec<DeclaredEvent>, event: EventId, way: DeclaredWay) -> Result<(), Memory>
    ensures { OnOk result (PutsWayIn event.n way events.old.items events.new.items) }
{
    let n = event.n as usize;
    if n >= events.len() {
        return Ok(());
    }
    if events[n].ways.len() >= u32::MAX as usize {
        return Err(Memory::from(Cap::Members));
    }
    events[n].ways.push(way)?;
    Ok(())
}

// Adds what a member of the unit is to its event.
fn add(
    events: &mut Vec<DeclaredEvent>,
    alloc: Global,
    scopes: &Scopes<'_>,
    values: &Values,
    unit: UnitId,
    member: &Member,
) -> Result<(), Memory>
    requires scopes { HasScopes scopes.now }
    requires in_range { unit.n < length scopes.now.tree.now.units.items }
    ensures { (m : RootedModel) (units : List UnitPath) (u : UnitPath)
        → AreSettled m units scopes.now values.now → Stands units unit.n u
        → AreMembersOfUnit m u (out-Member member.now ∷ [])
        → OnOk result (AddsMembers m units scopes.now.tree.now u (out-Member member.now ∷ [])
        events.old.items events.new.items) }
{
    let Some((name, way)) = way_of(alloc, scopes, values, unit, member)? else {
        return Ok(());
    };
    let names = [name];
    match scopes.event_at(unit, PathStart::Here, &names) {
        None => Ok(()),
        Some(event) => put(events, event, way),
    }
}

// The same of the member at a site.
fn add_at(
    events: &mut Vec<DeclaredEvent>,
    alloc: Global,
    scopes: &Scopes<'_>,
    values: &Values,
    unit: UnitId,
    site: (BodyId, u32),
) -> Result<(), Memory>
    requires scopes { HasScopes scopes.now }
    requires in_range { unit.n < length scopes.now.tree.now.units.items }
    ensures { (m : RootedModel) (units : List UnitPath) (u : UnitPath)
        → AreSettled m units scopes.now values.now → Stands units unit.n u
        → AreMembersOfUnit m u (form_of (declared_at m.declared (site_of site)))
        → OnOk result (AddsMembers m units scopes.now.tree.now u
        (form_of (declared_at m.declared (site_of site))) events.old.items events.new.items) }
{
    match owned_at(&scopes.tree.classes.bodies, site) {
        None => Ok(()),
        Some(Owned::Nested(_, _, _)) => Ok(()),
        Some(Owned::Plain(member)) => add(events, alloc, scopes, values, unit, member),
    }
}

// The same of the members at these sites, in their order.
fn add_all(
    events: &mut Vec<DeclaredEvent>,
    alloc: Global,
    scopes: &Scopes<'_>,
    values: &Values,
    unit: UnitId,
    sites: &[(BodyId, u32)],
) -> Result<(), Memory>
    requires scopes { HasScopes scopes.now }
    requires in_range { unit.n < length scopes.now.tree.now.units.items }
    ensures { (m : RootedModel) (units : List UnitPath) (u : UnitPath)
        → AreSettled m units scopes.now values.now → Stands units unit.n u
        → AreMembersOfUnit m u
        (flat_map (λ s. form_of (declared_at m.declared s)) (map site_of sites.now))
        → OnOk result (AddsMembers m units scopes.now.tree.now u
        (flat_map (λ s. form_of (declared_at m.declared s)) (map site_of sites.now))
        events.old.items events.new.items) }
{
    for site in sites {
        add_at(events, alloc, scopes, values, unit, *site)?;
    }
    Ok(())
}
