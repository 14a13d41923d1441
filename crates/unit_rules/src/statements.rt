//! Clones and aliases whose paths name no unit.

ghost use Rattle.std.specs.Prelude.{◌≡◌, ◌<◌, ◌^◌, List, length, map};
ghost use Rattle.ar_base.specs.Lists.{Stands, Along};
ghost use Rattle.class_table.specs.Earliest.{IsEarliest};
ghost use Rattle.class_table.specs.TablesInside.{IsBodyOf, site_of};
ghost use Rattle.hierarchy.specs.Models.{RootedModel};
ghost use Rattle.hierarchy.specs.ModelsInside.{IsKeptTable};
ghost use Rattle.hierarchy.specs.Units.{UnitPath, body_of};
ghost use Rattle.hierarchy.specs.Walks.{Nothing, Loops};
ghost use Rattle.hierarchy.specs.Tie.{AreOutlines};
ghost use Rattle.unit_walks.specs.Settling.{AreOutcomes};
ghost use Rattle.unit_rules.specs.Statements.{WalkEnds, EndsIn};
ghost use Rattle.unit_rules.specs.Naming.{statement_of, statement_found, EndsWalk, SitesEndSo, broken_so};

use ar_base::{BodyId, NameId, Place, UnitId};
use ar_syntax::{Member, Path};
use class_table::earliest::earliest;
use class_table::{Body, Classes, Owned, owned_at};
use hierarchy::Outline;
use unit_walks::{Led, Walks};

/// The earliest path of a clone or an alias of some unit whose walk names nothing, or None where there is none. Takes
/// no memory.
pub fn first_lost(classes: &Classes, outlines: &[Outline], walks: &Walks) -> Option<Place>
    requires { length outlines.now < 2 ^ 32 }
    ensures { (m : RootedModel) (units : List UnitPath)
        → AreOutlines m units classes.now outlines.now
        → AreOutcomes m units walks.now → IsEarliest (WalkEnds m units Nothing) result }
{
    first_broken(classes, outlines, walks, false)
}

// The path of a clone or an alias, and its name.
fn statement(owned: &Owned) -> Option<(&Path, NameId)>
    ensures { statement_found result ≡ statement_of owned.now }
{
    let member = match owned {
        Owned::Nested(_, _, _) => return None,
        Owned::Plain(member) => member,
    };
    match member {
        Member::Clones(path, name, _) => Some((path, *name)),
        Member::Embeds(path, name, _) => Some((path, *name)),
        Member::Extends(_, _) => None,
        Member::Declare(_, _, _) => None,
        Member::Block(_) => None,
        Member::Parameter(_, _, _, _) => None,
        Member::Kept(_, _, _) => None,
        Member::Event(_, _, _) => None,
        Member::Observer(_, _, _, _) => None,
        Member::Hide(_) => None,
        Member::Local(_, _, _, _) => None,
        Member::Sync(_, _, _) => None,
        Member::Assert(_) => None,
    }
}

// Where the path of a clone or an alias stands, where its walk loops, or else where it names nothing.
fn broken_at(owned: &Owned, walks: &Walks, unit: UnitId, looping: bool) -> Option<Place>
    ensures { (m : RootedModel) (units : List UnitPath) (u : UnitPath)
        → AreOutcomes m units walks.now
        → Stands units unit.n u → IsEarliest
        (EndsWalk m u (broken_so looping) (statement_of owned.now)) result }
{
    let (path, name) = statement(owned)?;
    match walks.outcome(unit, name) {
        Led::Unit(_) => None,
        Led::Nothing => if looping { None } else { Some(path.at) },
        Led::Loops => if looping { Some(path.at) } else { None },
    }
}

// The earliest such place among the members at these sites.
fn broken_among(
    bodies: &[Body],
    walks: &Walks,
    unit: UnitId,
    all: &[(BodyId, u32)],
    looping: bool,
) -> Option<Place>
    ensures { (m : RootedModel) (units : List UnitPath) (u : UnitPath)
        → Along IsBodyOf bodies.now m.declared.bodies
        → AreOutcomes m units walks.now → Stands units unit.n u
        → IsEarliest (SitesEndSo m u (broken_so looping) (map site_of all.now)) result }
{
    let mut found = None;
    for site in all {
        if let Some(owned) = owned_at(bodies, *site) {
            found = earliest(found, broken_at(owned, walks, unit, looping));
        }
    }
    found
}

// The earliest such place in all units.
fn first_broken(
    classes: &Classes,
    outlines: &[Outline],
    walks: &Walks,
    looping: bool,
) -> Option<Place>
    requires { length outlines.now < 2 ^ 32 }
    ensures { (m : RootedModel) (units : List UnitPath)
        → AreOutlines m units classes.now outlines.now
        → AreOutcomes m units walks.now → IsEarliest (WalkEnds m units (broken_so looping)) result }
{
    let mut found = None;
    for (place, outline) in outlines.iter().enumerate() {
        let unit = UnitId::new(place as u32);
        let broken = match classes.bodies.get(outline.body.n as usize) {
            None => None,
            Some(body) => broken_among(&classes.bodies, walks, unit, &body.all, looping),
        };
        found = earliest(found, broken);
    }
    found
}

/// The earliest path of a clone or an alias of some unit whose walk loops, or that is a clone of a unit with the body
/// of a unit above it; None where there is none. Takes no memory.
pub fn first_looping(classes: &Classes, outlines: &[Outline], walks: &Walks) -> Option<Place>
    requires { length outlines.now < 2 ^ 32 }
    ensures { (m : RootedModel) (units : List UnitPath)
        → AreOutlines m units classes.now outlines.now
        → AreOutcomes m units walks.now → IsEarliest (WalkEnds m units Loops) result }
{
    first_broken(classes, outlines, walks, true)
}
