//! All members of each body, the inherited ones first.

ghost use Rattle.std.specs.Prelude.{◌≡◌, ◌++◌, ◌<◌, ◌≤◌, ℕ, List, length, map, OnOk, IfOk, Some, option_map};
ghost use Rattle.class_table.specs.Declaring.{Declared};
ghost use Rattle.class_table.specs.Members.{Site, class_named, Members, Inherits, own_at, sites_from, extended as declared_extended};
ghost use Rattle.class_table.specs.TablesInside.{site_of};
ghost use Rattle.class_table.specs.Shown.{Shows, AreMembersListed};
ghost use Rattle.class_table.specs.Listing.{ListsDone, IsDone, AreDone, CanList, IsOfClass};

use crate::tables::{Body, MOST_MEMBERS, Owned};
use crate::types::TypeKinds;
use ar_base::{BodyId, Cap, Memory, NameId};
use ar_syntax::Member;
use std::alloc::Global;

/// Lists the members of the bodies in this order, in which each comes after the classes that it extends.
pub(crate) fn list_members(
    alloc: Global,
    bodies: &mut [Body],
    types: &TypeKinds,
    order: &[u32],
) -> Result<(), Memory>
    requires { (d : Declared) × Shows d bodies.old types.now × CanList d order.now }
    ensures { (d : Declared) → Shows d bodies.old types.now → CanList d order.now
        → OnOk result (AreMembersListed d bodies.new) }
{
    let mut room = MOST_MEMBERS;
    for body in order {
        let all = members_of(alloc, bodies, types, *body, room)?;
        room = room.saturating_sub(all.len());
        bodies[*body as usize].all = all;
    }
    Ok(())
}

// The members of a body, where those of each class that it extends are listed.
fn members_of(
    alloc: Global,
    bodies: &[Body],
    types: &TypeKinds,
    body: u32,
    room: usize,
) -> Result<Vec<(BodyId, u32)>, Memory>
    requires there { body < length bodies.now }
    requires room { room ≤ 134217728 }
    requires done { (d : Declared) × (done : List ℕ) × ListsDone d done bodies.now types.now
        × AreDone d done (own_at d body) }
    ensures { (d : Declared) (done : List ℕ) → ListsDone d done bodies.now types.now
        → AreDone d done (own_at d body)
        → IfOk result (λ all. Members d body (map site_of all.items)) }
{
    let own = &bodies[body as usize].own;
    let count = count_members(bodies, types, own);
    if count > room {
        return Err(Memory::from(Cap::Members));
    }
    let mut all = inherited(alloc, bodies, types, own, count)?;
    add_own(&mut all, BodyId::new(body), own)?;
    Ok(all)
}

// How many members a body has, where those of each class that it extends are listed.
// Takes no memory.
fn count_members(bodies: &[Body], types: &TypeKinds, own: &[Owned]) -> usize
    ensures { length own.now ≤ result }
{
    let mut count = own.len();
    for owned in own {
        count = count.saturating_add(count_inherited(bodies, types, owned));
    }
    count
}

/// How many members a member brings of the class that it extends, if it extends one and the members
/// of that class are listed. Takes no memory.
pub(crate) fn count_inherited(bodies: &[Body], types: &TypeKinds, owned: &Owned) -> usize
    ensures { (d : Declared) (x c : ℕ) (sites : List Site) → Shows d bodies.now types.now
        → AreMembersListed d bodies.now → declared_extended owned.now ≡ Some x → class_named d x ≡ Some c
        → Members d c sites → result ≡ length sites }
{
    let Some(name) = extended(owned) else {
        return 0;
    };
    let Some(class) = types.class(name) else {
        return 0;
    };
    match bodies.get(class.n as usize) {
        Some(body) => body.all.len(),
        None => 0,
    }
}

// The members that a body inherits, where those of each class that it extends are listed, with
// room for so many.
fn inherited(
    alloc: Global,
    bodies: &[Body],
    types: &TypeKinds,
    own: &[Owned],
    count: usize,
) -> Result<Vec<(BodyId, u32)>, Memory>
    requires { (d : Declared) × (done : List ℕ) × ListsDone d done bodies.now types.now
        × AreDone d done own.now }
    ensures { (d : Declared) (done : List ℕ) → ListsDone d done bodies.now types.now
        → AreDone d done own.now
        → IfOk result (λ all. Inherits d own.now (map site_of all.items)) }
{
    let mut all = Vec::with_capacity(alloc, count)?;
    for owned in own {
        if let Some(name) = extended(owned) {
            all.extend_from_slice(listed_of(bodies, types, name))?;
        }
    }
    Ok(all)
}

/// The name of the class that a member extends. Takes no memory.
pub(crate) fn extended(owned: &Owned) -> Option<NameId>
    ensures { option_map (λ x. x.n) result ≡ declared_extended owned.now }
{
    match owned {
        Owned::Plain(Member::Extends(name, _)) => Some(*name),
        _ => None,
    }
}

// The members of the class of this name, which are listed.
fn listed_of<'a>(bodies: &'a [Body], types: &TypeKinds, name: NameId) -> &'a [(BodyId, u32)]
    requires { (d : Declared) × (done : List ℕ) × ListsDone d done bodies.now types.now
        × IsDone d done name.n }
    ensures { (d : Declared) (done : List ℕ) → ListsDone d done bodies.now types.now
        → IsDone d done name.n → IsOfClass d name.n (map site_of result.now) }
{
    match types.class(name) {
        Some(class) => &bodies[class.n as usize].all,
        None => unreachable!(),
    }
}

// Adds the members that stand in a body.
fn add_own(all: &mut Vec<(BodyId, u32)>, body: BodyId, own: &[Owned]) -> Result<(), Memory>
    requires { length own.now ≤ 134217728 }
    ensures { OnOk result (map site_of all.new.items ≡ map site_of all.old.items
        ++ sites_from body.n 0 own.now) }
{
    for (place, _) in own.iter().enumerate() {
        all.push((body, place as u32))?;
    }
    Ok(())
}
