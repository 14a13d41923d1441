//! Canonical paths: the names from the main block down, with dots between them.

ghost use Rattle.std.specs.Prelude.{◌≡◌, List, map, IfOk};
ghost use Rattle.std.specs.String.{string_bytes};
ghost use Rattle.ar_base.specs.Texts.{text_at};
ghost use Rattle.class_table.specs.Members.{NamedMember};
ghost use Rattle.hierarchy.specs.Listing.{events};
ghost use Rattle.hierarchy.specs.Models.{RootedModel};
ghost use Rattle.hierarchy.specs.Paths.{prefix, unit_path, thing_path};
ghost use Rattle.hierarchy.specs.Tie.{IsTreeOf, IsThingNode, IsOwner, IsNameOfUnit};
ghost use Rattle.hierarchy.specs.Units.{UnitPath, Thing};
ghost use Rattle.bind_names.specs.Fronts.{HasFrontAbove};

use ar_base::{Memory, NameId, Names, Text, UnitId};
use hierarchy::{MemNode, Tree, UnitNode};
use std::alloc::Global;

// The text of a name, empty past the end of the table.
pub(crate) fn text_of(names: &Names, name: NameId) -> &str
    ensures { result.now ≡ text_at names.now name.n }
{
    match names.get(name) {
        Some(text) => text,
        None => "",
    }
}

// The text at a place of a list, empty past its end.
pub(crate) fn text_there(texts: &[Text], place: usize) -> &str
    ensures { result.now ≡ text_at texts.now place }
{
    match texts.get(place) {
        Some(text) => text.as_str(),
        None => "",
    }
}

// The path of a name in a unit, where these stand before names in units.
fn path_in(
    alloc: Global,
    names: &Names,
    prefixes: &[Text],
    unit: UnitId,
    name: NameId,
) -> Result<String, Memory>
    ensures { (m : RootedModel) (u : UnitPath) → names.now ≡ m.names
        → text_at prefixes.now unit.n ≡ prefix m u
        → IfOk result (λ path. string_bytes path
        ≡ thing_path m (record { unit = u; name = name.n })) }
{
    let mut path = String::from_str(alloc, text_there(prefixes, unit.n as usize))?;
    path.push_str(text_of(names, name))?;
    Ok(path)
}

// What stands before a name in a unit, where these stand before names in the units above it.
fn prefix_of(alloc: Global, names: &Names, above: &[Text], node: &UnitNode) -> Result<Text, Memory>
    ensures { (m : RootedModel) (units : List UnitPath) (u : UnitPath) → names.now ≡ m.names
        → HasFrontAbove m units u above.now
        → IsOwner units u node.now.owner → IsNameOfUnit u node.now.name
        → IfOk result (λ text. text ≡ prefix m u) }
{
    let Some(owner) = node.owner else {
        return Ok(Text::new(String::new(alloc)));
    };
    let mut path = path_in(alloc, names, above, owner, node.name)?;
    path.push_str(".")?;
    Ok(Text::new(path))
}

/// What stands before a name in each unit, in the order of the units: the unit's path and a dot, or
/// nothing in the main block. The error is want of memory.
pub fn prefixes(alloc: Global, tree: &Tree) -> Result<Vec<Text>, Memory>
    ensures { (m : RootedModel) (units : List UnitPath) → IsTreeOf m units tree.now
        → IfOk result (λ v. v.items ≡ map (prefix m) units) }
{
    let mut texts = Vec::new(alloc);
    for node in &tree.units {
        let text = prefix_of(alloc, &tree.classes.names, &texts, node)?;
        texts.push(text)?;
    }
    Ok(texts)
}

// The canonical path of a unit, where these stand before names in the units.
fn unit_path_of(
    alloc: Global,
    names: &Names,
    prefixes: &[Text],
    node: &UnitNode,
) -> Result<Text, Memory>
    ensures { (m : RootedModel) (units : List UnitPath) (u : UnitPath) → names.now ≡ m.names
        → HasFrontAbove m units u prefixes.now
        → IsOwner units u node.now.owner → IsNameOfUnit u node.now.name
        → IfOk result (λ text. text ≡ unit_path m u) }
{
    let path = match node.owner {
        Some(owner) => path_in(alloc, names, prefixes, owner, node.name)?,
        None => String::from_str(alloc, "main")?,
    };
    Ok(Text::new(path))
}

/// The canonical paths of the units, where these stand before names in them. The error is want of
/// memory.
pub fn unit_paths(alloc: Global, tree: &Tree, prefixes: &[Text]) -> Result<Vec<Text>, Memory>
    ensures { (m : RootedModel) (units : List UnitPath) → IsTreeOf m units tree.now
        → prefixes.now ≡ map (prefix m) units
        → IfOk result (λ v. v.items ≡ map (unit_path m) units) }
{
    let mut paths = Vec::new(alloc);
    for node in &tree.units {
        let path = unit_path_of(alloc, &tree.classes.names, prefixes, node)?;
        paths.push(path)?;
    }
    Ok(paths)
}

/// The canonical path of a thing of the tree, where these stand before names in its units. The error
/// is want of memory.
pub fn thing_path(
    alloc: Global,
    tree: &Tree,
    prefixes: &[Text],
    node: &MemNode,
) -> Result<Text, Memory>
    ensures { (m : RootedModel) (units : List UnitPath) (t : Thing) (g : NamedMember)
        → IsTreeOf m units tree.now → prefixes.now ≡ map (prefix m) units
        → IsThingNode m units t g node.now → IfOk result (λ path. path ≡ thing_path m t) }
{
    let path = path_in(alloc, &tree.classes.names, prefixes, node.unit, node.name)?;
    Ok(Text::new(path))
}

/// The canonical paths of the events, in the tree's order, where these stand before names in its
/// units. The error is want of memory.
pub fn event_paths(alloc: Global, tree: &Tree, prefixes: &[Text]) -> Result<Vec<Text>, Memory>
    ensures { (m : RootedModel) (units : List UnitPath) → IsTreeOf m units tree.now
        → prefixes.now ≡ map (prefix m) units
        → IfOk result (λ v. v.items ≡ map (thing_path m) (events m units)) }
{
    let mut paths = Vec::new(alloc);
    for node in &tree.events {
        let path = thing_path(alloc, tree, prefixes, node)?;
        paths.push(path)?;
    }
    Ok(paths)
}
