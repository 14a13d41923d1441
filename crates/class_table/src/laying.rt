//! The bodies of units, numbered in the order of their headings.

ghost use Rattle.std.specs.Prelude.{◌≡◌, ◌<◌, ◌≤◌, ◌++◌, length, List, OnOk, IfOk};
ghost use Rattle.class_table.specs.Laying.{LaysUnit, AddsBody, AddsMember, KeepsOwn};

use crate::tables::{Body, MOST_BODIES, Owned};
use ar_base::{BodyId, Cap, Memory, NameId, Place};
use ar_syntax::{Member, Unit};
use std::alloc::Global;

/// Puts the body of a class or block behind the bodies, and the bodies of the blocks in it behind that.
#[cycle(laying)]
pub(crate) fn lay_unit(alloc: Global, bodies: &mut Vec<Body>, unit: Unit) -> Result<BodyId, Memory>
    ensures number { IfOk result (λ id. id.n ≡ length bodies.old.items) }
    ensures laid { OnOk result (LaysUnit unit bodies.old.items bodies.new.items) }
    ensures few { OnOk result (length bodies.new.items ≤ 16777216) }
{
    let id = add_body(alloc, bodies, unit.name, unit.at)?;
    let mut own = Vec::new(alloc);
    for member in unit.members {
        lay_member(alloc, bodies, &mut own, member)?;
    }
    keep_own(bodies, id.n as usize, own);
    Ok(id)
}

// Adds a member to those of a body: a block by its body, which is laid, and any other as it is.
#[cycle(laying)]
fn lay_member(
    alloc: Global,
    bodies: &mut Vec<Body>,
    own: &mut Vec<Owned>,
    member: Member,
) -> Result<(), Memory>
    ensures laid { OnOk result (AddsMember member own.old.items own.new.items bodies.old.items
        bodies.new.items) }
    ensures few { length bodies.old.items ≤ 16777216
        → OnOk result (length bodies.new.items ≤ 16777216) }
{
    match member {
        Member::Block(unit) => {
            let name = unit.name;
            let at = unit.at;
            let body = lay_unit(alloc, bodies, unit)?;
            own.push(Owned::Nested(name, at, body))?;
            Ok(())
        }
        plain => {
            own.push(Owned::Plain(plain))?;
            Ok(())
        }
    }
}

// Puts a body without members behind the bodies.
fn add_body(
    alloc: Global,
    bodies: &mut Vec<Body>,
    name: NameId,
    at: Place,
) -> Result<BodyId, Memory>
    ensures number { IfOk result (λ id. id.n ≡ length bodies.old.items) }
    ensures added { OnOk result (AddsBody name at bodies.old.items bodies.new.items) }
    ensures few { OnOk result (length bodies.new.items ≤ 16777216) }
{
    let place = bodies.len();
    if place >= MOST_BODIES {
        return Err(Memory::from(Cap::Members));
    }
    bodies.push(Body {
        name,
        at,
        own: Vec::new(alloc),
        all: Vec::new(alloc),
    })?;
    Ok(BodyId::new(place as u32))
}

// Keeps the members of a body with it.
fn keep_own(bodies: &mut [Body], place: usize, own: Vec<Owned>)
    requires { place < length bodies.old }
    ensures { KeepsOwn own bodies.old bodies.new place }
{
    bodies[place].own = own;
}
