//! Counts of bodies and of all units.

ghost use Rattle.std.specs.Prelude.{List, [], ◌∷◌, map, IfOk};
ghost use Rattle.std.specs.List.{flat_map};
ghost use Rattle.ar_base.specs.Lists.{Along};
ghost use Rattle.class_table.specs.Declaring.{Declared};
ghost use Rattle.class_table.specs.declared.tables.Body.{Body as BodyOf};
ghost use Rattle.class_table.specs.declared.tables.Classes.{Classes as Table};
ghost use Rattle.class_table.specs.TablesInside.{IsBodyOf, IsNamedType, site_of};
ghost use Rattle.hierarchy.specs.Models.{RootedModel};
ghost use Rattle.hierarchy.specs.Units.{UnitPath, names_at};
ghost use Rattle.unit_rules.specs.Sizes.{tree_nodes};
ghost use Rattle.hierarchy.specs.Tie.{AreOutlines};
ghost use Rattle.unit_rules.specs.Counting.{AreMemberCounts, CountsMember, AreOwn, AreAt, AreOfBody};
ghost use Rattle.unit_rules.specs.TypingInside.{KnowsPlaces};

use crate::counts::Counts;
use crate::members::counts_of;
use crate::types::TypePlaces;
use ar_base::{BodyId, Memory, NameId};
use class_table::{Body, Classes, Owned, TypeBody};
use hierarchy::Outline;
use std::alloc::Global;

/// The counts of the tree of these units.
pub(crate) fn totals(
    alloc: Global,
    classes: &Classes,
    outlines: &[Outline],
) -> Result<Counts, Memory>
    ensures { (m : RootedModel) (units : List UnitPath)
        → AreOutlines m units classes.now outlines.now
        → IfOk result (AreMemberCounts (flat_map (names_at m) units) (tree_nodes m units)) }
{
    let places = TypePlaces::new(alloc, &classes.types)?;
    let rows = all_own(alloc, &classes.bodies, &classes.types, &places)?;
    let counts = of_bodies(alloc, &rows, &classes.bodies)?;
    Ok(of_units(&counts, outlines))
}

// The counts of the members that stand in a body, one after the other.
fn own_counts(
    alloc: Global,
    own: &[Owned],
    types: &[(NameId, TypeBody)],
    places: &TypePlaces,
) -> Result<Vec<Counts>, Memory>
    ensures { (d : Declared) → Along (IsNamedType d.symbols) types.now d.types
        → KnowsPlaces types.now places.now
        → IfOk result (λ v. Along (CountsMember d) own.now v.items) }
{
    let mut counts = Vec::new(alloc);
    for owned in own {
        counts.push(counts_of(owned, types, places))?;
    }
    Ok(counts)
}

// The counts of the members that stand in each body.
fn all_own(
    alloc: Global,
    bodies: &[Body],
    types: &[(NameId, TypeBody)],
    places: &TypePlaces,
) -> Result<Vec<Vec<Counts>>, Memory>
    ensures { (d : Declared) → Along (IsNamedType d.symbols) types.now d.types
        → KnowsPlaces types.now places.now
        → IfOk result (λ v. Along (AreOwn d) bodies.now v.items) }
{
    let mut rows = Vec::new(alloc);
    for body in bodies {
        rows.push(own_counts(alloc, &body.own, types, places)?)?;
    }
    Ok(rows)
}

// The counts of the member at a site.
fn at_site(rows: &[Vec<Counts>], site: (BodyId, u32)) -> Counts
    ensures { (d : Declared) (bodies : List BodyOf) → Along IsBodyOf bodies d.bodies
        → Along (AreOwn d) bodies rows.now
        → AreAt d (site_of site ∷ []) result }
{
    match rows.get(site.0.n as usize) {
        None => Counts::none(),
        Some(row) => match row.get(site.1 as usize) {
            None => Counts::none(),
            Some(counts) => *counts,
        },
    }
}

// The counts of the members at these sites.
fn at_sites(rows: &[Vec<Counts>], sites: &[(BodyId, u32)]) -> Counts
    ensures { (d : Declared) (bodies : List BodyOf) → Along IsBodyOf bodies d.bodies
        → Along (AreOwn d) bodies rows.now
        → AreAt d (map site_of sites.now) result }
{
    let mut counts = Counts::none();
    for site in sites {
        counts = counts.with(at_site(rows, *site));
    }
    counts
}

// The counts of all members of each body.
fn of_bodies(alloc: Global, rows: &[Vec<Counts>], bodies: &[Body]) -> Result<Vec<Counts>, Memory>
    ensures { (d : Declared) → Along IsBodyOf bodies.now d.bodies
        → Along (AreOwn d) bodies.now rows.now
        → IfOk result (λ v. Along (AreOfBody d) bodies.now v.items) }
{
    let mut counts = Vec::new(alloc);
    for body in bodies {
        counts.push(at_sites(rows, &body.all))?;
    }
    Ok(counts)
}

// The counts of all units, by those of their bodies.
fn of_units(counts: &[Counts], outlines: &[Outline]) -> Counts
    ensures { (m : RootedModel) (units : List UnitPath) (classes : Table)
        → AreOutlines m units classes outlines.now
        → Along (AreOfBody m.declared) classes.bodies.items counts.now
        → AreMemberCounts (flat_map (names_at m) units) (tree_nodes m units) result }
{
    let mut total = Counts::none();
    for outline in outlines {
        let own = match counts.get(outline.body.n as usize) {
            None => Counts::none(),
            Some(own) => *own,
        };
        total = total.with(own);
    }
    total
}
