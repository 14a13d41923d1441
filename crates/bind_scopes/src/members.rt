//! The names of members of units, by the units' bodies.

ghost use Rattle.std.specs.Prelude.{◌≡◌, List, [], ◌∷◌, map, length, OnOk, IfOk, Some};
ghost use Rattle.ar_base.specs.Lists.{Along};
ghost use Rattle.class_table.specs.Declaring.{Declared};
ghost use Rattle.class_table.specs.Members.{Site, MemberKind, NamedMember, names_of, named_at, all_named};
ghost use Rattle.class_table.specs.Shown.{IsDeclaredBy};
ghost use Rattle.class_table.specs.TablesInside.{HoldsDeclared, IsNamedType, site_of};
ghost use Rattle.hierarchy.specs.Models.{RootedModel};
ghost use Rattle.hierarchy.specs.Tie.{IsTreeOf};
ghost use Rattle.hierarchy.specs.Units.{UnitPath};
ghost use Rattle.unit_rules.specs.TypingInside.{KnowsPlaces};
ghost use Rattle.bind_scopes.specs.Members.{AddsMemberNames, HasFirst};

use crate::sites::members_of;
use ar_base::{BodyId, Memory, NameId, Place};
use ar_syntax::{Member, TypeForm};
use class_table::{Classes, Owned, TypeBody, owned_at};
use hierarchy::Tree;
use std::alloc::Global;
use std::collections::HashSet;
use unit_rules::TypePlaces;

/// Names by the numbers of bodies.
pub(crate) type Names = HashSet<(u32, u32)>;

/// The names of the members of all units, inherited ones included, by the units' bodies.
pub(crate) fn names_of_members(alloc: Global, tree: &Tree) -> Result<Names, Memory>
    ensures { (m : RootedModel) (units : List UnitPath) → IsTreeOf m units tree.now
        → IfOk result (HasFirst m units (length units)) }
{
    let places = TypePlaces::new(alloc, &tree.classes.types)?;
    let mut names = HashSet::new(alloc);
    for node in &tree.units {
        let sites = members_of(&tree.classes, node.body);
        add_sites(&mut names, node.body, &tree.classes, &places, sites)?;
    }
    Ok(names)
}

// Whether a declaration by this type declares anything.
fn declares(form: TypeForm, types: &[(NameId, TypeBody)], places: &TypePlaces) -> bool
    ensures { (d : Declared) → Along (IsNamedType d.symbols) types.now d.types
        → KnowsPlaces types.now places.now → IsDeclaredBy d form result }
{
    match form {
        TypeForm::Boolean => true,
        TypeForm::Integer => false,
        TypeForm::Named(name) => places.find(types, name).is_some(),
    }
}

// Adds a name for the body.
fn add(names: &mut Names, body: BodyId, name: NameId) -> Result<(), Memory>
    ensures { OnOk result ((g : NamedMember) → g.name ≡ name.n
        → AddsMemberNames body.n (g ∷ []) names.old names.new) }
{
    names.insert((body.n, name.n))?;
    Ok(())
}

// Adds the names of a declaration for the body.
fn add_all(names: &mut Names, body: BodyId, list: &[(NameId, Place)]) -> Result<(), Memory>
    ensures { OnOk result ((s : Site) (kind : MemberKind)
        → AddsMemberNames body.n (all_named s (Some kind) list.now) names.old names.new) }
{
    for (name, _) in list {
        add(names, body, *name)?;
    }
    Ok(())
}

// Adds the names that a member gives for the body.
fn add_member(
    names: &mut Names,
    body: BodyId,
    owned: &Owned,
    types: &[(NameId, TypeBody)],
    places: &TypePlaces,
) -> Result<(), Memory>
    ensures { (d : Declared) (s : Site) → Along (IsNamedType d.symbols) types.now d.types
        → KnowsPlaces types.now places.now
        → OnOk result (AddsMemberNames body.n (names_of d s (Some owned.now)) names.old names.new) }
{
    let member = match owned {
        Owned::Nested(name, _, _) => return add(names, body, *name),
        Owned::Plain(member) => member,
    };
    match member {
        Member::Declare(type_name, list, _) => {
            if declares(type_name.form, types, places) {
                add_all(names, body, list)
            } else {
                Ok(())
            }
        }
        Member::Clones(_, name, _)
        | Member::Embeds(_, name, _)
        | Member::Parameter(_, name, _, _)
        | Member::Kept(name, _, _)
        | Member::Event(name, _, _)
        | Member::Observer(_, name, _, _) => add(names, body, *name),
        Member::Extends(_, _) => Ok(()),
        Member::Block(_) => Ok(()),
        Member::Hide(_) => Ok(()),
        Member::Local(_, _, _, _) => Ok(()),
        Member::Sync(_, _, _) => Ok(()),
        Member::Assert(_) => Ok(()),
    }
}

// Adds the names of the members at these sites for the body.
fn add_sites(
    names: &mut Names,
    body: BodyId,
    classes: &Classes,
    places: &TypePlaces,
    sites: &[(BodyId, u32)],
) -> Result<(), Memory>
    ensures { (d : Declared) → HoldsDeclared d classes.now → KnowsPlaces classes.now.types.items places.now
        → OnOk result (AddsMemberNames body.n (named_at d (map site_of sites.now)) names.old names.new) }
{
    for site in sites {
        if let Some(owned) = owned_at(&classes.bodies, *site) {
            add_member(names, body, owned, &classes.types, places)?;
        }
    }
    Ok(())
}
