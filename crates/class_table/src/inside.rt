//! Which bodies are inside which.

ghost use Rattle.std.specs.Prelude.{◌≡◌, length, option_map, IfOk, OnOk};
ghost use Rattle.class_table.specs.Declaring.{Declared};
ghost use Rattle.class_table.specs.Kinds.{KnowsTypes};
ghost use Rattle.class_table.specs.Shown.{Shows, put_inside, inside_type};
ghost use Rattle.class_table.specs.Rows.{AreInnerBodies, IsRowOf, AddsInside};
ghost use Rattle.ar_syntax.specs.declared.members.TypeForm.TheVariants.{Named};

use crate::tables::{Body, Owned};
use crate::types::TypeKinds;
use ar_base::{BodyId, Memory, NameId, Place};
use ar_syntax::{Member, TypeForm};
use std::alloc::Global;

/// A body inside another one: that of a nested block, or of the class that a type name names, with its place.
#[derive(Clone, Copy)]
pub(crate) struct Inside {
    pub body: BodyId,
    pub at: Option<Place>,
}

/// The body that a member puts inside its own body, if it puts one there. Takes no memory.
pub(crate) fn inside_of(owned: &Owned, types: &TypeKinds) -> Option<Inside>
    ensures { (d : Declared) → KnowsTypes d types.now
        → option_map (λ i. (i.body.n, i.at)) result ≡ put_inside d owned.now }
{
    let member = match owned {
        Owned::Nested(_, _, body) => {
            return Some(Inside {
                body: *body,
                at: None,
            });
        }
        Owned::Plain(member) => member,
    };
    match member {
        Member::Extends(name, at) => inside_named(*name, *at, types),
        Member::Declare(type_name, _, _) => match type_name.form {
            TypeForm::Named(name) => inside_named(name, type_name.at, types),
            TypeForm::Boolean | TypeForm::Integer => None,
        },
        _ => None,
    }
}

// The body of the class of this name.
fn inside_named(name: NameId, at: Place, types: &TypeKinds) -> Option<Inside>
    ensures { (d : Declared) → KnowsTypes d types.now
        → option_map (λ i. (i.body.n, i.at)) result ≡ inside_type d (Named name) at }
{
    let body = types.class(name)?;
    Some(Inside { body, at: Some(at) })
}

/// For each body the numbers of the bodies inside it.
pub(crate) fn all_inside(
    alloc: Global,
    bodies: &[Body],
    types: &TypeKinds,
) -> Result<Vec<Vec<u32>>, Memory>
    ensures inner { (d : Declared) → Shows d bodies.now types.now
        → IfOk result (λ rows. AreInnerBodies d rows.items) }
    ensures long { IfOk result (λ rows. length rows.items ≡ length bodies.now) }
{
    let mut rows = Vec::new(alloc);
    for body in bodies {
        rows.push(row(alloc, &body.own, types)?)?;
    }
    Ok(rows)
}

// The numbers of the bodies that these members put inside.
fn row(alloc: Global, own: &[Owned], types: &TypeKinds) -> Result<Vec<u32>, Memory>
    ensures { (d : Declared) → KnowsTypes d types.now
        → IfOk result (λ row. IsRowOf d own.now row.items) }
{
    let mut row = Vec::new(alloc);
    for owned in own {
        add_inside(&mut row, owned, types)?;
    }
    Ok(row)
}

// Adds the number of the body that a member puts inside, if it puts one there.
fn add_inside(row: &mut Vec<u32>, owned: &Owned, types: &TypeKinds) -> Result<(), Memory>
    ensures { (d : Declared) → KnowsTypes d types.now
        → OnOk result (AddsInside d owned.now row.old.items row.new.items) }
{
    match inside_of(owned, types) {
        None => Ok(()),
        Some(inside) => {
            row.push(inside.body.n)?;
            Ok(())
        }
    }
}
