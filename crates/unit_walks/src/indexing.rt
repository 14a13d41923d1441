//! The names of bodies that may be units, listed and indexed once.

ghost use Rattle.std.specs.Prelude.{◌≡◌, ◌+◌, List, Vec, length, map, OnOk, IfOk, Some};
ghost use Rattle.std.specs.Global.{Global};
ghost use Rattle.ar_base.specs.Lists.{Along, Stands};
ghost use Rattle.ar_syntax.specs.declared.members.Member.{out-Member};
ghost use Rattle.class_table.specs.Declaring.{Declared};
ghost use Rattle.class_table.specs.Members.{names_of, names_of_form, named_at};
ghost use Rattle.class_table.specs.TablesInside.{IsBodyOf, IsNamedType, site_of};
ghost use Rattle.hierarchy.specs.Models.{RootedModel};
ghost use Rattle.hierarchy.specs.ModelsInside.{IsKeptTable, sites_kept};
ghost use Rattle.unit_walks.specs.Classes.{AreClasses, class_by, instance_in};
ghost use Rattle.unit_walks.specs.Forms.{IsFormsFor, IsUnitName, IsUnitList, AddsUnitNames, AreIndexed, only_units, instances};
ghost use Rattle.unit_walks.specs.declared.forms.UnitName.{UnitName as Named};

use crate::forms::{Forms, UnitForm, UnitName};
use ar_base::{BodyId, Cap, Memory, NameId, Place};
use ar_syntax::{Member, TypeForm};
use class_table::{Body, Classes, Owned, TypeBody, owned_at};
use std::alloc::Global;
use std::collections::HashMap;

/// The greatest number of names that are listed, over all bodies.
const MOST_NAMES: usize = 16_777_216;

/// The bodies of classes by their names; under the name of a domain there is none.
type ClassBodies = HashMap<u32, Option<BodyId>>;

/// The places of names in lists, by body and name.
type Places = HashMap<(usize, u32), usize>;

/// The names of each body that may be units. Takes memory linear in them.
pub(crate) fn forms_of(alloc: Global, classes: &Classes) -> Result<Forms<'_>, Memory>
    ensures { (m : RootedModel) → IsKeptTable m classes.now → IfOk result (IsFormsFor m) }
{
    let bodies = class_bodies(alloc, &classes.types)?;
    let lists = list_bodies(alloc, &bodies, &classes.bodies)?;
    let places = index(alloc, &lists)?;
    Ok(Forms { lists, places })
}

// The body of a class.
fn class_of(body: &TypeBody) -> Option<BodyId>
    ensures { result ≡ class_by body.now }
{
    match body {
        TypeBody::Domain(_) => None,
        TypeBody::Class(body) => Some(*body),
    }
}

// The bodies of these types by their names; of two of one name the first counts.
fn class_bodies(alloc: Global, types: &[(NameId, TypeBody)]) -> Result<ClassBodies, Memory>
    ensures { (d : Declared) → Along (IsNamedType d.symbols) types.now d.types
        → IfOk result (AreClasses d) }
{
    let mut classes = HashMap::new(alloc);
    for (name, body) in types {
        if !classes.contains_key(&name.n) {
            classes.insert(name.n, class_of(body))?;
        }
    }
    Ok(classes)
}

// The body of the class of which a declaration by this type declares instances.
fn instance_body(classes: &ClassBodies, form: TypeForm) -> Option<BodyId>
    ensures { result ≡ instance_in classes.now form }
{
    match form {
        TypeForm::Boolean => None,
        TypeForm::Integer => None,
        TypeForm::Named(name) => match classes.get(&name.n) {
            None => None,
            Some(body) => *body,
        },
    }
}

// Lists instances of the class of this body.
fn add_instances(
    list: &mut Vec<UnitName>,
    names: &[(NameId, Place)],
    body: BodyId,
    site: (BodyId, u32),
) -> Result<(), Memory>
    ensures { OnOk result (AddsUnitNames (instances (site_of site) body.n names.now)
        list.old.items list.new.items) }
{
    for (name, _) in names {
        let form = UnitForm::Inner(body, Some(site));
        list.push(UnitName { name: *name, form })?;
    }
    Ok(())
}

// Lists the names of a member that is no block that may be units.
fn add_plain<'a>(
    list: &mut Vec<UnitName<'a>>,
    classes: &ClassBodies,
    member: &'a Member,
    site: (BodyId, u32),
) -> Result<(), Memory>
    ensures { (d : Declared) → AreClasses d classes.now
        → OnOk result (AddsUnitNames (only_units
        (names_of_form d (site_of site) (out-Member member.now)))
        list.old.items list.new.items) }
{
    match member {
        Member::Declare(type_name, names, _) => match instance_body(classes, type_name.form) {
            None => Ok(()),
            Some(body) => add_instances(list, names, body, site),
        },
        Member::Clones(path, name, _) => {
            list.push(UnitName {
                name: *name,
                form: UnitForm::Clone(path),
            })?;
            Ok(())
        }
        Member::Embeds(path, name, _) => {
            list.push(UnitName {
                name: *name,
                form: UnitForm::Alias(path),
            })?;
            Ok(())
        }
        Member::Extends(_, _) => Ok(()),
        Member::Block(_) => Ok(()),
        Member::Parameter(_, _, _, _) => Ok(()),
        Member::Kept(_, _, _) => Ok(()),
        Member::Event(_, _, _) => Ok(()),
        Member::Observer(_, _, _, _) => Ok(()),
        Member::Hide(_) => Ok(()),
        Member::Local(_, _, _, _) => Ok(()),
        Member::Sync(_, _, _) => Ok(()),
        Member::Assert(_) => Ok(()),
    }
}

// Lists the names of a member that may be units.
fn add_member<'a>(
    list: &mut Vec<UnitName<'a>>,
    classes: &ClassBodies,
    owned: &'a Owned,
    site: (BodyId, u32),
) -> Result<(), Memory>
    ensures { (d : Declared) → AreClasses d classes.now
        → OnOk result (AddsUnitNames (only_units (names_of d (site_of site) (Some owned.now)))
        list.old.items list.new.items) }
{
    match owned {
        Owned::Plain(member) => add_plain(list, classes, member, site),
        Owned::Nested(name, _, body) => {
            let form = UnitForm::Inner(*body, None);
            list.push(UnitName { name: *name, form })?;
            Ok(())
        }
    }
}

// The names of a body that may be units, of which there are at most so many.
fn list_body<'a>(
    alloc: Global,
    classes: &ClassBodies,
    bodies: &'a [Body],
    all: &[(BodyId, u32)],
    room: usize,
) -> Result<Vec<UnitName<'a>>, Memory>
    ensures { (d : Declared) → AreClasses d classes.now → Along IsBodyOf bodies.now d.bodies
        → IfOk result (λ list. Along IsUnitName list.items
        (only_units (named_at d (map site_of all.now)))) }
{
    let mut list = Vec::new(alloc);
    for site in all {
        if let Some(owned) = owned_at(bodies, *site) {
            add_member(&mut list, classes, owned, *site)?;
        }
        if list.len() > room {
            return Err(Memory::from(Cap::WalkEntries));
        }
    }
    Ok(list)
}

// The names of each body that may be units.
fn list_bodies<'a>(
    alloc: Global,
    classes: &ClassBodies,
    bodies: &'a [Body],
) -> Result<Vec<Vec<UnitName<'a>>>, Memory>
    ensures { (d : Declared) → AreClasses d classes.now → Along IsBodyOf bodies.now d.bodies
        → IfOk result (λ lists. Along (IsUnitList d) lists.items (map sites_kept bodies.now)) }
{
    let mut lists = Vec::new(alloc);
    let mut room = MOST_NAMES;
    for body in bodies {
        let list = list_body(alloc, classes, bodies, &body.all, room)?;
        room = room.saturating_sub(list.len());
        lists.push(list)?;
    }
    Ok(lists)
}

// Keeps the places of the names of this list, which is that of the body.
fn index_list(places: &mut Places, body: usize, list: &[UnitName]) -> Result<(), Memory>
    ensures { (lists : List (Vec Named Global)) (l : Vec Named Global) → Stands lists body l
        → l.items ≡ list.now → AreIndexed lists body 0 places.old
        → OnOk result (AreIndexed lists (body + 1) 0 places.new) }
{
    for (place, named) in list.iter().enumerate() {
        places.insert((body, named.name.n), place)?;
    }
    Ok(())
}

// The places of the names of these lists, by body and name.
fn index(alloc: Global, lists: &[Vec<UnitName>]) -> Result<Places, Memory>
    ensures { IfOk result (λ places. AreIndexed lists.now (length lists.now) 0 places) }
{
    let mut places = HashMap::new(alloc);
    for (body, list) in lists.iter().enumerate() {
        index_list(&mut places, body, list)?;
    }
    Ok(places)
}
