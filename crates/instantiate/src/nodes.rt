//! The things of units, in the order of units and members.

ghost use Rattle.std.specs.Prelude.{◌≡◌, ◌<◌, ◌^◌, ◌++◌, List, length, map, OnOk, IfOk, Some};
ghost use Rattle.std.specs.List.{flat_map};
ghost use Rattle.ar_base.specs.Lists.{Along};
ghost use Rattle.ar_syntax.specs.declared.members.Member.{out-Member};
ghost use Rattle.class_table.specs.Declaring.{Declared};
ghost use Rattle.class_table.specs.Members.{names_of, named_at};
ghost use Rattle.class_table.specs.TablesInside.{HoldsDeclared, site_of};
ghost use Rattle.hierarchy.specs.Models.{RootedModel};
ghost use Rattle.hierarchy.specs.Units.{UnitPath};
ghost use Rattle.hierarchy.specs.Listing.{things_in};
ghost use Rattle.hierarchy.specs.Tie.{AreOutlines};
ghost use Rattle.unit_rules.specs.TypingInside.{KnowsPlaces};
ghost use Rattle.instantiate.specs.Nodes.{test_of, declares_so, single_of, node_named, nodes_of_members, names_nodes, IsNodeSo};

use ar_base::{BodyId, Memory, NameId, Place, UnitId};
use ar_syntax::{Member, TypeForm};
use class_table::{Classes, Owned, owned_at};
use hierarchy::{MemNode, Outline, Source};
use std::alloc::Global;
use unit_rules::TypePlaces;

/// Which things are listed.
#[derive(Clone, Copy)]
pub(crate) enum Listed {
    Variables,
    Parameters,
    Events,
    Observers,
}

/// The nodes of all things of the kind, by unit and member.
pub(crate) fn nodes(
    alloc: Global,
    classes: &Classes,
    places: &TypePlaces,
    outlines: &[Outline],
    listed: Listed,
) -> Result<Vec<MemNode>, Memory>
    requires { length outlines.now < 2 ^ 32 }
    ensures { (m : RootedModel) (units : List UnitPath)
        → AreOutlines m units classes.now outlines.now
        → KnowsPlaces classes.now.types.items places.now
        → IfOk result (λ v. Along (IsNodeSo m units (test_of listed))
        (flat_map (things_in (test_of listed) m) units) v.items) }
{
    let mut nodes = Vec::new(alloc);
    for (place, outline) in outlines.iter().enumerate() {
        let unit = UnitId::new(place as u32);
        if let Some(body) = classes.bodies.get(outline.body.n as usize) {
            add_sites(&mut nodes, unit, &body.all, classes, places, listed)?;
        }
    }
    Ok(nodes)
}

// The node of a member with this name.
fn node(unit: UnitId, site: (BodyId, u32), name: NameId) -> MemNode
    ensures { result ≡ node_named unit (site_of site) name }
{
    MemNode {
        unit,
        name,
        source: Source {
            body: site.0,
            member: site.1,
            setting: None,
        },
    }
}

// The name of a member that gives one thing of the kind.
fn single(member: &Member, listed: Listed) -> Option<NameId>
    ensures { result ≡ single_of listed (out-Member member.now) }
{
    match listed {
        Listed::Variables => None,
        Listed::Parameters => match member {
            Member::Parameter(_, name, _, _) | Member::Kept(name, _, _) => Some(*name),
            _ => None,
        },
        Listed::Events => match member {
            Member::Event(name, _, _) => Some(*name),
            _ => None,
        },
        Listed::Observers => match member {
            Member::Observer(_, name, _, _) => Some(*name),
            _ => None,
        },
    }
}

// Whether a declaration by this type gives things of the kind.
fn declares(form: TypeForm, classes: &Classes, places: &TypePlaces, listed: Listed) -> bool
    ensures { (d : Declared) → HoldsDeclared d classes.now → KnowsPlaces classes.now.types.items places.now
        → result ≡ declares_so listed d form }
{
    match listed {
        Listed::Variables => places.is_domain(&classes.types, form),
        Listed::Parameters | Listed::Events | Listed::Observers => false,
    }
}

// Adds a node for each of these names.
fn add_names(
    nodes: &mut Vec<MemNode>,
    unit: UnitId,
    site: (BodyId, u32),
    names: &[(NameId, Place)],
) -> Result<(), Memory>
    ensures { OnOk result (nodes.new.items ≡ nodes.old.items
        ++ names_nodes unit (site_of site) names.now) }
{
    for (name, _) in names {
        nodes.push(node(unit, site, *name))?;
    }
    Ok(())
}

// Adds the nodes of what a member gives of the kind.
fn add_member(
    nodes: &mut Vec<MemNode>,
    unit: UnitId,
    site: (BodyId, u32),
    owned: &Owned,
    classes: &Classes,
    places: &TypePlaces,
    listed: Listed,
) -> Result<(), Memory>
    ensures { (d : Declared) → HoldsDeclared d classes.now → KnowsPlaces classes.now.types.items places.now
        → OnOk result (nodes.new.items ≡ nodes.old.items
        ++ nodes_of_members unit (test_of listed) (names_of d (site_of site) (Some owned.now))) }
{
    let member = match owned {
        Owned::Nested(_, _, _) => return Ok(()),
        Owned::Plain(member) => member,
    };
    if let Member::Declare(type_name, names, _) = member {
        if declares(type_name.form, classes, places, listed) {
            return add_names(nodes, unit, site, names);
        }
        return Ok(());
    }
    match single(member, listed) {
        None => Ok(()),
        Some(name) => {
            nodes.push(node(unit, site, name))?;
            Ok(())
        }
    }
}

// Adds the nodes of what the members at these sites give of the kind.
fn add_sites(
    nodes: &mut Vec<MemNode>,
    unit: UnitId,
    sites: &[(BodyId, u32)],
    classes: &Classes,
    places: &TypePlaces,
    listed: Listed,
) -> Result<(), Memory>
    ensures { (d : Declared) → HoldsDeclared d classes.now → KnowsPlaces classes.now.types.items places.now
        → OnOk result (nodes.new.items ≡ nodes.old.items
        ++ nodes_of_members unit (test_of listed) (named_at d (map site_of sites.now))) }
{
    for site in sites {
        if let Some(owned) = owned_at(&classes.bodies, *site) {
            add_member(nodes, unit, *site, owned, classes, places, listed)?;
        }
    }
    Ok(())
}
