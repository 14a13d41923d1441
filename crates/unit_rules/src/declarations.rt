//! The first declaration of variables that breaks rule L8.

ghost use Rattle.std.specs.Prelude.{◌≡◌, List, map, IfOk, Some, Option};
ghost use Rattle.ar_base.specs.Lists.{Along};
ghost use Rattle.class_table.specs.Declaring.{Declared};
ghost use Rattle.class_table.specs.Earliest.{IsEarliest};
ghost use Rattle.class_table.specs.TablesInside.{HoldsDeclared, site_of};
ghost use Rattle.class_table.specs.declared.tables.Classes.{Classes as Table};
ghost use Rattle.hierarchy.specs.Models.{RootedModel};
ghost use Rattle.hierarchy.specs.Units.{UnitPath};
ghost use Rattle.hierarchy.specs.Listing.{form_of};
ghost use Rattle.hierarchy.specs.Settings.{is_state as says_state, is_flow as says_flow};
ghost use Rattle.hierarchy.specs.Tie.{AreOutlines};
ghost use Rattle.unit_rules.specs.TypingInside.{KnowsPlaces};
ghost use Rattle.unit_rules.specs.Rules.{BreaksDeclaration};
ghost use Rattle.unit_rules.specs.Searched.{BreaksOne, forms_of, IsFirstIn};

use crate::TypePlaces;
use ar_base::{BodyId, Memory, Place};
use ar_syntax::{Member, Setting, Word};
use class_table::earliest::earliest;
use class_table::{Classes, Owned, owned_at};
use hierarchy::Outline;
use std::alloc::Global;

/// Whether these are the settings of a state variable: one, called `init`.
pub fn is_state(settings: &[Setting]) -> bool
    ensures { result ≡ says_state settings.now }
{
    match settings {
        [only] => matches!(only.target.as_slice(), [Word::Init]),
        _ => false,
    }
}

/// Whether these are the settings of a flow: one, called `reset`.
pub fn is_flow(settings: &[Setting]) -> bool
    ensures { result ≡ says_flow settings.now }
{
    match settings {
        [only] => matches!(only.target.as_slice(), [Word::Reset]),
        _ => false,
    }
}

// The place of the first name of a declaration of variables without its one setting.
fn wrong(owned: &Owned, classes: &Classes, places: &TypePlaces) -> Option<Place>
    ensures { (d : Declared) → HoldsDeclared d classes.now → KnowsPlaces classes.now.types.items places.now
        → IsEarliest (BreaksOne d (form_of (Some owned.now))) result }
{
    let member = match owned {
        Owned::Nested(_, _, _) => return None,
        Owned::Plain(member) => member,
    };
    match member {
        Member::Declare(type_name, names, settings) => {
            if !places.is_domain(&classes.types, type_name.form) {
                return None;
            }
            if is_state(settings) || is_flow(settings) {
                return None;
            }
            match names.get(0) {
                Some(name) => Some(name.1),
                None => None,
            }
        }
        _ => None,
    }
}

// The earliest place of a wrong declaration at these sites.
fn wrong_in(classes: &Classes, places: &TypePlaces, sites: &[(BodyId, u32)]) -> Option<Place>
    ensures { (d : Declared) → HoldsDeclared d classes.now → KnowsPlaces classes.now.types.items places.now
        → IsEarliest (BreaksOne d (forms_of d (map site_of sites.now))) result }
{
    let mut found = None;
    for site in sites {
        if let Some(owned) = owned_at(&classes.bodies, *site) {
            found = earliest(found, wrong(owned, classes, places));
        }
    }
    found
}

// The earliest place of a wrong declaration of each body.
fn of_bodies(
    alloc: Global,
    classes: &Classes,
    places: &TypePlaces,
) -> Result<Vec<Option<Place>>, Memory>
    ensures { (d : Declared) → HoldsDeclared d classes.now → KnowsPlaces classes.now.types.items places.now
        → IfOk result (λ v. Along (IsFirstIn d) classes.now.bodies.items v.items) }
{
    let mut firsts = Vec::new(alloc);
    for body in &classes.bodies {
        firsts.push(wrong_in(classes, places, &body.all))?;
    }
    Ok(firsts)
}

// The earliest place of a wrong declaration of all units, by those of their bodies.
fn of_units(firsts: &[Option<Place>], outlines: &[Outline]) -> Option<Place>
    ensures { (m : RootedModel) (units : List UnitPath) (classes : Table)
        → AreOutlines m units classes outlines.now
        → Along (IsFirstIn m.declared) classes.bodies.items firsts.now
        → IsEarliest (BreaksDeclaration m units) result }
{
    let mut found = None;
    for outline in outlines {
        if let Some(first) = firsts.get(outline.body.n as usize) {
            found = earliest(found, *first);
        }
    }
    found
}

/// The earliest place where rule L8 is broken in these units: that of the first name of a declaration of variables
/// whose settings are not exactly one, called `init` or `reset`.
pub fn first_wrong_declaration(
    alloc: Global,
    classes: &Classes,
    outlines: &[Outline],
) -> Result<Option<Place>, Memory>
    ensures { (m : RootedModel) (units : List UnitPath)
        → AreOutlines m units classes.now outlines.now
        → IfOk result (IsEarliest (BreaksDeclaration m units)) }
{
    let places = TypePlaces::new(alloc, &classes.types)?;
    let firsts = of_bodies(alloc, classes, &places)?;
    Ok(of_units(&firsts, outlines))
}
