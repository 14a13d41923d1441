//! The units that the names of a unit lead to.

ghost use Rattle.std.specs.Prelude.{◌≡◌, ◌<◌, ◌^◌, List, [], ◌∷◌, length, map, OnOk, IfOk};
ghost use Rattle.std.specs.List.Sorted.{IsPermutation, IsNonDecreasingBy};
ghost use Rattle.ar_base.specs.Lists.{Stands, Along};
ghost use Rattle.ar_base.specs.declared.places.Place.{Place as PlaceOf};
ghost use Rattle.ar_base.specs.Numbers.{NameId as Name};
ghost use Rattle.class_table.specs.Declaring.{Declared};
ghost use Rattle.class_table.specs.TablesInside.{IsBodyOf, site_of};
ghost use Rattle.hierarchy.specs.Models.{RootedModel};
ghost use Rattle.hierarchy.specs.ModelsInside.{IsKeptTable};
ghost use Rattle.hierarchy.specs.Units.{UnitPath, body_of, members_at};
ghost use Rattle.hierarchy.specs.Tie.{AreOutlines, IsOutline, IsUnitNode};
ghost use Rattle.unit_walks.specs.Settling.{AreOutcomes};
ghost use Rattle.unit_rules.specs.Naming.{NameEntry, AddsNames, instance_names, inner_names, alias_names, names_at_sites};

use ar_base::{BodyId, Memory, NameId, Place, UnitId};
use ar_syntax::{Member, TypeForm};
use class_table::{Body, Classes, Owned, owned_at};
use hierarchy::{Outline, UnitNode};
use std::alloc::Global;
use unit_walks::{Led, Walks};

type Entries = Vec<(NameId, UnitId)>;

/// The units with the names that lead to units in each of them, from their outlines and from what the walks of names
/// lead to. The only error is want of memory.
pub fn name_units(
    alloc: Global,
    classes: &Classes,
    outlines: &[Outline],
    walks: &Walks,
) -> Result<Vec<UnitNode>, Memory>
    requires { length outlines.now < 2 ^ 32 }
    ensures { (m : RootedModel) (units : List UnitPath)
        → AreOutlines m units classes.now outlines.now
        → AreOutcomes m units walks.now → IfOk result
        (λ nodes. Along (IsUnitNode m units) units nodes.items) }
{
    let mut nodes = Vec::new(alloc);
    for (place, outline) in outlines.iter().enumerate() {
        let node = node_of(alloc, classes, walks, UnitId::new(place as u32), outline)?;
        nodes.push(node)?;
    }
    Ok(nodes)
}

// Adds the unit that a name leads to, if it leads to one.
fn add(entries: &mut Entries, walks: &Walks, unit: UnitId, name: NameId) -> Result<(), Memory>
    ensures { (m : RootedModel) (units : List UnitPath) (u : UnitPath)
        → AreOutcomes m units walks.now
        → Stands units unit.n u
        → OnOk result (AddsNames m units u entries.old.items (name.n ∷ []) entries.new.items) }
{
    match walks.outcome(unit, name) {
        Led::Unit(found) => entries.push((name, found))?,
        Led::Nothing => {}
        Led::Loops => {}
    }
    Ok(())
}

// Adds the units that these names lead to.
fn add_all(
    entries: &mut Entries,
    walks: &Walks,
    unit: UnitId,
    names: &[(NameId, Place)],
) -> Result<(), Memory>
    ensures { (m : RootedModel) (units : List UnitPath) (u : UnitPath)
        → AreOutcomes m units walks.now
        → Stands units unit.n u
        → OnOk result (AddsNames m units u entries.old.items
        (map (λ (n : Name × PlaceOf). n.0.n) names.now) entries.new.items) }
{
    for (name, _) in names {
        add(entries, walks, unit, *name)?;
    }
    Ok(())
}

// Adds the units that the names of a declaration lead to, where its type has a name.
fn add_declared(
    entries: &mut Entries,
    walks: &Walks,
    unit: UnitId,
    form: TypeForm,
    names: &[(NameId, Place)],
) -> Result<(), Memory>
    ensures { (m : RootedModel) (units : List UnitPath) (u : UnitPath)
        → AreOutcomes m units walks.now
        → Stands units unit.n u
        → OnOk result (AddsNames m units u entries.old.items (instance_names form names.now)
        entries.new.items) }
{
    match form {
        TypeForm::Named(_) => add_all(entries, walks, unit, names),
        TypeForm::Boolean => Ok(()),
        TypeForm::Integer => Ok(()),
    }
}

// Adds the units in the unit that the names of a member lead to.
fn add_inner(inner: &mut Entries, walks: &Walks, unit: UnitId, owned: &Owned) -> Result<(), Memory>
    ensures { (m : RootedModel) (units : List UnitPath) (u : UnitPath)
        → AreOutcomes m units walks.now
        → Stands units unit.n u
        → OnOk result (AddsNames m units u inner.old.items (inner_names owned.now)
        inner.new.items) }
{
    let member = match owned {
        Owned::Nested(name, _, _) => return add(inner, walks, unit, *name),
        Owned::Plain(member) => member,
    };
    match member {
        Member::Declare(type_name, names, _) => add_declared(
            inner,
            walks,
            unit,
            type_name.form,
            names,
        ),
        Member::Clones(_, name, _) => add(inner, walks, unit, *name),
        Member::Extends(_, _) => Ok(()),
        Member::Block(_) => Ok(()),
        Member::Embeds(_, _, _) => Ok(()),
        Member::Parameter(_, _, _, _) => Ok(()),
        Member::Kept(_, _, _) => Ok(()),
        Member::Event(_, _, _) => Ok(()),
        Member::Observer(_, _, _, _) => Ok(()),
        Member::Hide(_) => Ok(()),
        Member::Local(_, _, _, _) => Ok(()),
        Member::Sync(_, _, _) => Ok(()),
        Member::Assert(_) => Ok(()),
    }
}

// Adds the unit that an alias names.
fn add_alias(
    aliases: &mut Entries,
    walks: &Walks,
    unit: UnitId,
    owned: &Owned,
) -> Result<(), Memory>
    ensures { (m : RootedModel) (units : List UnitPath) (u : UnitPath)
        → AreOutcomes m units walks.now
        → Stands units unit.n u
        → OnOk result (AddsNames m units u aliases.old.items (alias_names owned.now)
        aliases.new.items) }
{
    let member = match owned {
        Owned::Nested(_, _, _) => return Ok(()),
        Owned::Plain(member) => member,
    };
    match member {
        Member::Embeds(_, name, _) => add(aliases, walks, unit, *name),
        Member::Extends(_, _) => Ok(()),
        Member::Declare(_, _, _) => Ok(()),
        Member::Block(_) => Ok(()),
        Member::Clones(_, _, _) => Ok(()),
        Member::Parameter(_, _, _, _) => Ok(()),
        Member::Kept(_, _, _) => Ok(()),
        Member::Event(_, _, _) => Ok(()),
        Member::Observer(_, _, _, _) => Ok(()),
        Member::Hide(_) => Ok(()),
        Member::Local(_, _, _, _) => Ok(()),
        Member::Sync(_, _, _) => Ok(()),
        Member::Assert(_) => Ok(()),
    }
}

// The units in a unit, by the names of its members.
fn inner_of(
    alloc: Global,
    bodies: &[Body],
    walks: &Walks,
    unit: UnitId,
    all: &[(BodyId, u32)],
) -> Result<Entries, Memory>
    ensures { (d : Declared) (m : RootedModel) (units : List UnitPath) (u : UnitPath)
        → Along IsBodyOf bodies.now d.bodies
        → AreOutcomes m units walks.now → Stands units unit.n u
        → IfOk result (λ r. AddsNames m units u []
        (names_at_sites inner_names d (map site_of all.now)) r.items) }
{
    let mut inner = Vec::new(alloc);
    for site in all {
        if let Some(owned) = owned_at(bodies, *site) {
            add_inner(&mut inner, walks, unit, owned)?;
        }
    }
    Ok(inner)
}

// The units that have another name in a unit.
fn aliases_of(
    alloc: Global,
    bodies: &[Body],
    walks: &Walks,
    unit: UnitId,
    all: &[(BodyId, u32)],
) -> Result<Entries, Memory>
    ensures { (d : Declared) (m : RootedModel) (units : List UnitPath) (u : UnitPath)
        → Along IsBodyOf bodies.now d.bodies
        → AreOutcomes m units walks.now → Stands units unit.n u
        → IfOk result (λ r. AddsNames m units u []
        (names_at_sites alias_names d (map site_of all.now)) r.items) }
{
    let mut aliases = Vec::new(alloc);
    for site in all {
        if let Some(owned) = owned_at(bodies, *site) {
            add_alias(&mut aliases, walks, unit, owned)?;
        }
    }
    Ok(aliases)
}

// The entries in the order of their names.
fn in_order(mut entries: Entries) -> Result<Entries, Memory>
    ensures same { IfOk result (λ r. IsPermutation entries.items r.items) }
    ensures ordered { IfOk result (λ r. IsNonDecreasingBy (λ (e : NameEntry). e.0.n) r.items) }
{
    entries.sort_by_key(|entry| entry.0.n)?;
    Ok(entries)
}

// The members of a unit of this body, inherited ones included.
fn members_of(classes: &Classes, body: BodyId) -> &[(BodyId, u32)]
    ensures { (m : RootedModel) (u : UnitPath) → IsKeptTable m classes.now → body.n ≡ body_of m u
        → members_at m u ≡ map site_of result.now }
{
    match classes.bodies.get(body.n as usize) {
        None => &[],
        Some(found) => &found.all,
    }
}

// A unit with the units that its names lead to.
fn node_of(
    alloc: Global,
    classes: &Classes,
    walks: &Walks,
    unit: UnitId,
    outline: &Outline,
) -> Result<UnitNode, Memory>
    ensures { (m : RootedModel) (units : List UnitPath) (u : UnitPath) → IsKeptTable m classes.now
        → AreOutcomes m units walks.now → Stands units unit.n u → IsOutline m units u outline.now
        → IfOk result (IsUnitNode m units u) }
{
    let all = members_of(classes, outline.body);
    let inner = inner_of(alloc, &classes.bodies, walks, unit, all)?;
    let aliases = aliases_of(alloc, &classes.bodies, walks, unit, all)?;
    Ok(UnitNode {
        name: outline.name,
        owner: outline.owner,
        body: outline.body,
        inner: in_order(inner)?,
        aliases: in_order(aliases)?,
    })
}
