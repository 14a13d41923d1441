//! The first name of a member that breaks rule L4.

ghost use Rattle.std.specs.Prelude.{◌≡◌, ◌≤◌, ℕ, List, length, map, IfOk};
ghost use Rattle.ar_base.specs.Numbers.{BodyId as BodyNumber};
ghost use Rattle.class_table.specs.Declaring.{Declared};
ghost use Rattle.class_table.specs.Members.{Members, own_at};
ghost use Rattle.class_table.specs.TablesInside.{site_of};
ghost use Rattle.class_table.specs.Earliest.{IsEarliest};
ghost use Rattle.class_table.specs.Retested.{IsApart, AreNamesTested, KnowsGiven};
ghost use Rattle.class_table.specs.Rules.{BreaksNames};
ghost use Rattle.class_table.specs.Kinds.{KnowsTypes};
ghost use Rattle.class_table.specs.Shown.{Shows, AreMembersListed};

use crate::earliest::earliest;
use crate::given::Given;
use crate::giving::names_given;
use crate::members::{count_inherited, extended};
use crate::repeats::Repeats;
use crate::sites::owned_at;
use crate::tables::{Body, Owned};
use crate::types::TypeKinds;
use ar_base::{BodyId, Memory, Place};
use ar_syntax::Member;
use std::alloc::Global;

/// The earliest place of a later one of two members of a body that have one name.
pub(crate) fn first_named_twice(
    alloc: Global,
    bodies: &[Body],
    types: &TypeKinds,
) -> Result<Option<Place>, Memory>
    ensures { (d : Declared) → KnowsTypes d types.now → AreMembersListed d bodies.now
        → IfOk result (IsEarliest (BreaksNames d)) }
{
    let given = Given::new(alloc, bodies, types)?;
    let mut found = None;
    for body in bodies {
        found = earliest(found, in_body(alloc, bodies, types, &given, body)?);
    }
    Ok(found)
}

// How many members the first class that a body extends has: they are the body's first ones. None
// where it extends no class. Takes no memory.
fn count_first(bodies: &[Body], types: &TypeKinds, own: &[Owned]) -> usize
    ensures { (d : Declared) (b : ℕ) (all : List (BodyNumber × ℕ)) → Shows d bodies.now types.now
        → AreMembersListed d bodies.now → Members d b (map site_of all) → own_at d b ≡ own.now
        → IsApart d all result }
{
    for owned in own {
        if extended(owned).is_some() {
            return count_inherited(bodies, types, owned);
        }
    }
    0
}

// About how many names the members at these sites give. Takes no memory.
fn size_of(bodies: &[Body], sites: &[(BodyId, u32)]) -> usize {
    let mut size: usize = 0;
    for site in sites {
        let more = match owned_at(bodies, *site) {
            Some(Owned::Plain(Member::Declare(_, list, _))) => list.len(),
            _ => 1,
        };
        size = size.saturating_add(more);
    }
    size
}

// How many of a body's first members need no test among themselves: those of the first class that it
// extends, unless it takes longer to look for the other names among them than to test all.
fn tested_before(bodies: &[Body], types: &TypeKinds, body: &Body) -> usize
    ensures apart { (d : Declared) (b : ℕ) → Shows d bodies.now types.now
        → AreMembersListed d bodies.now → Members d b (map site_of body.now.all.items)
        → own_at d b ≡ body.now.own.items → IsApart d body.now.all.items result }
    ensures within { result ≤ length body.now.all.items }
{
    let inherited = count_first(bodies, types, &body.own);
    if inherited > body.all.len() {
        return 0;
    }
    let looked_up = size_of(bodies, &body.all[inherited..]).saturating_mul(inherited);
    if looked_up / 8 > size_of(bodies, &body.all[..inherited]) {
        return 0;
    }
    inherited
}

// The earliest of the later ones of two names of a body, of which not both are inherited from the
// first class that the body extends.
fn in_body(
    alloc: Global,
    bodies: &[Body],
    types: &TypeKinds,
    given: &Given,
    body: &Body,
) -> Result<Option<Place>, Memory>
    ensures { (d : Declared) (b : ℕ) → Shows d bodies.now types.now
        → AreMembersListed d bodies.now → KnowsGiven d given.now → Members d b (map site_of body.now.all.items) → own_at d b ≡ body.now.own.items
        → IfOk result (AreNamesTested d body.now) }
{
    let before = tested_before(bodies, types, body);
    let list = names_given(alloc, bodies, types, &body.all[before..])?;
    let mut names = Repeats::new(alloc);
    names.add_all(&list)?;
    Ok(earliest(names.found, given.first_taken(&body.all[..before], &list)))
}
