//! The first type name that breaks rule L3.

ghost use Rattle.std.specs.Prelude.{◌≡◌, ◌↔◌, ◌<◌, ◌≤◌, ℕ, List, [], ◌∷◌, length, Some, IsTrue, IfOk, OnOk};
ghost use Rattle.std.specs.Prelude.{true, false, Vec, IfSome, IfNone};
ghost use Rattle.std.specs.Global.{Global};
ghost use Rattle.ar_base.specs.Breach.{IsEarlier};
ghost use Rattle.ar_base.specs.Lists.{Stands, IsOneOf};
ghost use Rattle.ar_base.specs.declared.places.Place.{Place as PlaceOf};
ghost use Rattle.class_table.specs.Declaring.{Declared};
ghost use Rattle.class_table.specs.Earliest.{IsEarliest, FindsBeside, IsNotBefore};
ghost use Rattle.class_table.specs.Members.{own_at};
ghost use Rattle.class_table.specs.Ranks.{AreRanks};
ghost use Rattle.class_table.specs.Rows.{AreInnerBodies};
ghost use Rattle.class_table.specs.Rules.{HasInside, IsWithin, BreaksContainment};
ghost use Rattle.class_table.specs.Kinds.{KnowsTypes};
ghost use Rattle.class_table.specs.Shown.{Shows, NamesAgain, NamesRound, put_inside};
ghost use Rattle.class_table.specs.declared.tables.Body.{Body as TextOf};
ghost use Rattle.class_table.specs.Searching.{IsSeen, Opens, OpensOne, OpensInside};

use crate::inside::{all_inside, inside_of};
use crate::ranks::ranks;
use crate::tables::{Body, Owned};
use crate::types::TypeKinds;
use ar_base::{Memory, Place};
use std::alloc::Global;

/// The earliest type name in a body whose class has that body inside it.
pub(crate) fn first_contained(
    alloc: Global,
    bodies: &[Body],
    types: &TypeKinds,
) -> Result<Option<Place>, Memory>
    requires { length bodies.now ≤ 16777216 }
    ensures { (d : Declared) → Shows d bodies.now types.now
        → IfOk result (IsEarliest (BreaksContainment d)) }
{
    let rows = all_inside(alloc, bodies, types)?;
    let ranks = ranks(alloc, rows)?;
    let mut found = None;
    for place in 0..bodies.len() {
        found = in_body(alloc, bodies, types, &ranks, place as u32, found)?;
    }
    Ok(found)
}

// Whether the second body is the first or inside it at some depth. Each body is opened once.
fn reaches(
    alloc: Global,
    bodies: &[Body],
    types: &TypeKinds,
    from: u32,
    to: u32,
) -> Result<bool, Memory>
    requires { to < length bodies.now }
    ensures { (d : Declared) → Shows d bodies.now types.now
        → IfOk result (λ is_within. IsTrue is_within ↔ IsWithin d from to) }
{
    let mut seen = vec![in alloc; false; bodies.len()]?;
    let mut opened = Vec::new(alloc);
    add_one(&mut opened, &mut seen, from)?;
    for next in 0..bodies.len() {
        let Some(body) = opened.get(next).copied() else {
            return Ok(false);
        };
        if body == to {
            return Ok(true);
        }
        open_inside(&mut opened, &mut seen, bodies, types, body)?;
    }
    Ok(false)
}

// Adds the bodies that are inside a body, where they are not seen yet.
fn open_inside(
    opened: &mut Vec<u32>,
    seen: &mut [bool],
    bodies: &[Body],
    types: &TypeKinds,
    body: u32,
) -> Result<(), Memory>
    ensures { (d : Declared) → Shows d bodies.now types.now → IsSeen seen.old opened.old.items
        → OnOk result (OpensInside d body opened.old.items opened.new.items seen.new) }
{
    match bodies.get(body as usize) {
        Some(found) => add_new(opened, seen, &found.own, types),
        None => Ok(()),
    }
}

// Adds the bodies that these members put inside, where they are not seen yet.
fn add_new(
    opened: &mut Vec<u32>,
    seen: &mut [bool],
    own: &[Owned],
    types: &TypeKinds,
) -> Result<(), Memory>
    ensures { (d : Declared) → KnowsTypes d types.now → IsSeen seen.old opened.old.items
        → OnOk result (Opens d own.now opened.old.items opened.new.items seen.new) }
{
    for owned in own {
        add_inside(opened, seen, owned, types)?;
    }
    Ok(())
}

// Adds the body that a member puts inside, where it is not seen yet.
fn add_inside(
    opened: &mut Vec<u32>,
    seen: &mut [bool],
    owned: &Owned,
    types: &TypeKinds,
) -> Result<(), Memory>
    ensures { (d : Declared) → KnowsTypes d types.now → IsSeen seen.old opened.old.items
        → OnOk result (Opens d (owned.now ∷ []) opened.old.items opened.new.items seen.new) }
{
    match inside_of(owned, types) {
        None => Ok(()),
        Some(inside) => add_one(opened, seen, inside.body.n),
    }
}

// Adds a body, where it is one of the bodies and not seen yet.
fn add_one(opened: &mut Vec<u32>, seen: &mut [bool], body: u32) -> Result<(), Memory>
    ensures { IsSeen seen.old opened.old.items
        → OnOk result (OpensOne body opened.old.items opened.new.items seen.new) }
{
    let place = body as usize;
    if place >= seen.len() {
        return Ok(());
    }
    if seen[place] {
        return Ok(());
    }
    seen[place] = true;
    opened.push(body)?;
    Ok(())
}

// The place found, or the earliest type name before it in a body whose class has the body inside it.
fn in_body(
    alloc: Global,
    bodies: &[Body],
    types: &TypeKinds,
    ranks: &[Option<usize>],
    body: u32,
    found: Option<Place>,
) -> Result<Option<Place>, Memory>
    requires { body < length bodies.now }
    ensures { (d : Declared) (rows : List (Vec ℕ Global)) (b : TextOf) → Shows d bodies.now types.now
        → AreInnerBodies d rows → AreRanks rows ranks.now → Stands bodies.now body b
        → IfOk result (FindsBeside (NamesAgain d body b.own.items) found) }
{
    let mut first = found;
    for owned in &bodies[body as usize].own {
        if let Some((class, at)) = to_search(types, ranks, body, owned, first) {
            if reaches(alloc, bodies, types, class, body)? {
                first = Some(at);
            }
        }
    }
    Ok(first)
}

// The class that a member names, and where, if that place may be the earliest one where a class has
// the body inside it: it is before the place found, and the ranks do not tell that the class has not.
fn to_search(
    types: &TypeKinds,
    ranks: &[Option<usize>],
    body: u32,
    owned: &Owned,
    found: Option<Place>,
) -> Option<(u32, Place)>
    ensures some { (d : Declared) → KnowsTypes d types.now
        → IfSome result (λ c. (put_inside d owned.now ≡ Some (c.0, Some c.1))
        × ((q : PlaceOf) → found ≡ Some q → IsEarlier c.1 q)) }
    ensures none { (d : Declared) (rows : List (Vec ℕ Global)) → KnowsTypes d types.now
        → AreInnerBodies d rows → AreRanks rows ranks.now → IsOneOf (own_at d body) owned.now
        → IfNone result ((p : PlaceOf) → NamesRound d body owned.now p → IsNotBefore p found) }
{
    let inside = inside_of(owned, types)?;
    let at = inside.at?;
    if !is_before_found(at, found) {
        return None;
    }
    if !may_return(ranks, body, inside.body.n) {
        return None;
    }
    Some((inside.body.n, at))
}

// Whether the place is before the one found, if there is one.
fn is_before_found(at: Place, found: Option<Place>) -> bool
    ensures yes { result ≡ true → (q : PlaceOf) → found ≡ Some q → IsEarlier at q }
    ensures no { result ≡ false → IsNotBefore at found }
{
    match found {
        None => true,
        Some(first) => at.is_before(first),
    }
}

// Whether the ranks leave open that the class, which is inside the body, has the body inside it.
fn may_return(ranks: &[Option<usize>], body: u32, class: u32) -> bool
    ensures { result ≡ false → (d : Declared) (rows : List (Vec ℕ Global)) → AreInnerBodies d rows
        → AreRanks rows ranks.now → HasInside d body class → IsWithin d class body → ⊥ }
{
    let Some(rank) = rank_of(ranks, body) else {
        return true;
    };
    match rank_of(ranks, class) {
        None => true,
        Some(other) => rank == other,
    }
}

// The rank of a number, if it has one.
fn rank_of(ranks: &[Option<usize>], number: u32) -> Option<usize>
    ensures { IfSome result (λ r. Stands ranks.now number (Some r)) }
{
    match ranks.get(number as usize) {
        None => None,
        Some(rank) => *rank,
    }
}
