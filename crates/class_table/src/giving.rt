//! The names that members give.

ghost use Rattle.std.specs.Prelude.{◌≡◌, ◌++◌, ◌∷◌, [], ℕ, List, map, OnOk, IfOk, Some};
ghost use Rattle.class_table.specs.Declaring.{Declared};
ghost use Rattle.class_table.specs.Members.{Site, names_of};
ghost use Rattle.class_table.specs.Names.{name_and_place};
ghost use Rattle.class_table.specs.Retested.{member_names_at, names_of_site};
ghost use Rattle.class_table.specs.TablesInside.{site_of};
ghost use Rattle.class_table.specs.Kinds.{KnowsTypes};
ghost use Rattle.class_table.specs.Shown.{Shows, IsDeclaredBy, member_place};

use crate::sites::owned_at;
use crate::tables::{Body, Owned};
use crate::types::TypeKinds;
use ar_base::{BodyId, Memory, NameId, Place};
use ar_syntax::{Member, TypeForm};
use std::alloc::Global;

/// The names that the members at these sites give, with their places.
pub(crate) fn names_given(
    alloc: Global,
    bodies: &[Body],
    types: &TypeKinds,
    sites: &[(BodyId, u32)],
) -> Result<Vec<(NameId, Place)>, Memory>
    ensures { (d : Declared) → Shows d bodies.now types.now
        → IfOk result (λ names. map name_and_place names.items
        ≡ member_names_at d (map site_of sites.now)) }
{
    let mut names = Vec::new(alloc);
    for site in sites {
        meet_site(&mut names, bodies, types, *site)?;
    }
    Ok(names)
}

/// Adds the names that the member at a site gives.
pub(crate) fn meet_site(
    names: &mut Vec<(NameId, Place)>,
    bodies: &[Body],
    types: &TypeKinds,
    site: (BodyId, u32),
) -> Result<(), Memory>
    ensures { (d : Declared) → Shows d bodies.now types.now
        → OnOk result (map name_and_place names.new.items
        ≡ map name_and_place names.old.items ++ names_of_site d (site_of site)) }
{
    match owned_at(bodies, site) {
        None => Ok(()),
        Some(owned) => meet(names, owned, types),
    }
}

// Adds the names that a member gives.
fn meet(names: &mut Vec<(NameId, Place)>, owned: &Owned, types: &TypeKinds) -> Result<(), Memory>
    ensures { (d : Declared) (s : Site) → KnowsTypes d types.now
        → OnOk result (map name_and_place names.new.items
        ≡ map name_and_place names.old.items ++ map member_place (names_of d s (Some owned.now))) }
{
    let member = match owned {
        Owned::Nested(name, at, _) => return meet_one(names, *name, *at),
        Owned::Plain(member) => member,
    };
    match member {
        Member::Declare(type_name, list, _) => {
            if is_declared(type_name.form, types) {
                names.extend_from_slice(list)?;
            }
            Ok(())
        }
        Member::Clones(_, name, at)
        | Member::Embeds(_, name, at)
        | Member::Parameter(_, name, at, _)
        | Member::Kept(name, at, _)
        | Member::Event(name, at, _)
        | Member::Observer(_, name, at, _) => meet_one(names, *name, *at),
        Member::Extends(_, _) => Ok(()),
        Member::Block(_) => Ok(()),
        Member::Hide(_) => Ok(()),
        Member::Local(_, _, _, _) => Ok(()),
        Member::Sync(_, _, _) => Ok(()),
        Member::Assert(_) => Ok(()),
    }
}

// Adds one name.
fn meet_one(names: &mut Vec<(NameId, Place)>, name: NameId, at: Place) -> Result<(), Memory>
    ensures { OnOk result (map name_and_place names.new.items
        ≡ map name_and_place names.old.items ++ (name.n, at) ∷ []) }
{
    names.push((name, at))?;
    Ok(())
}

// Whether a declaration by this type declares anything.
fn is_declared(form: TypeForm, types: &TypeKinds) -> bool
    ensures { (d : Declared) → KnowsTypes d types.now → IsDeclaredBy d form result }
{
    match form {
        TypeForm::Boolean => true,
        TypeForm::Integer => false,
        TypeForm::Named(name) => types.kind(name).is_some(),
    }
}
