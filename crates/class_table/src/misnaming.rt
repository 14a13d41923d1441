//! The first type name that breaks rule L2.

ghost use Rattle.std.specs.Prelude.{◌≡◌, is_some};
ghost use Rattle.class_table.specs.Declaring.{Declared};
ghost use Rattle.class_table.specs.Earliest.{IsEarliest};
ghost use Rattle.class_table.specs.Rules.{BreaksTypes};
ghost use Rattle.class_table.specs.Members.{class_named};
ghost use Rattle.class_table.specs.Misnaming.{misnamed_at, place_unless, types_form, bounds_form};
ghost use Rattle.class_table.specs.Kinds.{KnowsTypes};
ghost use Rattle.class_table.specs.Shown.{Shows, MisnamesOne};

use crate::earliest::earliest;
use crate::tables::{Body, Owned};
use crate::types::{Kind, TypeKinds};
use ar_base::{NameId, Place};
use ar_syntax::{Member, TypeForm};

/// The earliest type name that names nothing of its kind. Takes no memory.
pub(crate) fn first_misnamed(bodies: &[Body], types: &TypeKinds) -> Option<Place>
    ensures { (d : Declared) → Shows d bodies.now types.now → IsEarliest (BreaksTypes d) result }
{
    let mut found = None;
    for body in bodies {
        found = earliest(found, misnamed_in(&body.own, types));
    }
    found
}

// The earliest of the type names of these members that name nothing of their kind.
fn misnamed_in(own: &[Owned], types: &TypeKinds) -> Option<Place>
    ensures { (d : Declared) → KnowsTypes d types.now → IsEarliest (MisnamesOne d own.now) result }
{
    let mut found = None;
    for owned in own {
        found = earliest(found, misnamed(owned, types));
    }
    found
}

// The type name of a member, where it names nothing of its kind.
fn misnamed(owned: &Owned, types: &TypeKinds) -> Option<Place>
    ensures { (d : Declared) → KnowsTypes d types.now → result ≡ misnamed_at d owned.now }
{
    let member = match owned {
        Owned::Nested(_, _, _) => return None,
        Owned::Plain(member) => member,
    };
    match member {
        Member::Extends(name, at) => if_not(*at, is_class(*name, types)),
        Member::Declare(name, _, _) => if_not(name.at, is_type(name.form, types)),
        Member::Parameter(name, _, _, _) => if_not(name.at, is_domain(name.form, types)),
        Member::Observer(name, _, _, _) => if_not(name.at, is_domain(name.form, types)),
        _ => None,
    }
}

fn if_not(at: Place, is_right: bool) -> Option<Place>
    ensures { result ≡ place_unless is_right at }
{
    if is_right { None } else { Some(at) }
}

fn is_class(name: NameId, types: &TypeKinds) -> bool
    ensures { (d : Declared) → KnowsTypes d types.now → result ≡ is_some (class_named d name.n) }
{
    types.class(name).is_some()
}

fn is_type(form: TypeForm, types: &TypeKinds) -> bool
    ensures { (d : Declared) → KnowsTypes d types.now → result ≡ types_form d form }
{
    match form {
        TypeForm::Boolean | TypeForm::Integer => true,
        TypeForm::Named(name) => types.kind(name).is_some(),
    }
}

fn is_domain(form: TypeForm, types: &TypeKinds) -> bool
    ensures { (d : Declared) → KnowsTypes d types.now → result ≡ bounds_form d form }
{
    match form {
        TypeForm::Boolean | TypeForm::Integer => true,
        TypeForm::Named(name) => match types.kind(name) {
            Some(Kind::Domain) => true,
            Some(Kind::Class(_)) => false,
            None => false,
        },
    }
}
