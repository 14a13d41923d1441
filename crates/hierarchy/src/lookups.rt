//! What paths name in a tree of units.

ghost use Rattle.std.specs.Prelude.{◌<◌, List, length, option_map};
ghost use Rattle.std.specs.List.Sorted.{IsNonDecreasingBy};
ghost use Rattle.ar_base.specs.Lists.{Stands};
ghost use Rattle.ar_base.specs.Numbers.{VarId as VarNumber};
ghost use Rattle.ar_base.specs.NumbersInside.{EventId as EventNumber};
ghost use Rattle.hierarchy.specs.Models.{RootedModel};
ghost use Rattle.hierarchy.specs.Units.{UnitPath, start_of, numbers};
ghost use Rattle.hierarchy.specs.Walks.{is_variable, is_parameter, is_event, is_observer};
ghost use Rattle.hierarchy.specs.Listing.{variables, parameters, events, observers};
ghost use Rattle.hierarchy.specs.Tie.{IsTreeOf, AnswersUnit, AnswersThing};
ghost use Rattle.hierarchy.specs.Finding.{unit_number, StartsAt, IsSortedEntry, IsStep, FindsNode, FindsOwner, IsSomeTree};

use crate::tree::{MemNode, ParNode, Tree, UnitNode, VarNode};
use ar_base::{EventId, NameId, UnitId, VarId};
use ar_syntax::PathStart;

/// The unit that the names lead to, read in the unit `from`: a first word `owner` goes up and `main` to the main block, and
/// each name to an inner unit or to what an alias names. None exactly where they lead to no unit. Takes no memory.
pub fn unit_at(tree: &Tree, from: UnitId, first: PathStart, names: &[NameId]) -> Option<UnitId>
    requires tree { IsSomeTree tree.now }
    requires in_range { from.n < length tree.now.units.items }
    ensures { (m : RootedModel) (units : List UnitPath) (u : UnitPath) → IsTreeOf m units tree.now
        → Stands units from.n u → AnswersUnit m units u first (numbers names.now)
        (unit_number result) }
{
    let mut at = start_at(tree, from, first)?;
    for name in names {
        at = step(&tree.units[at.n as usize], *name)?;
    }
    Some(at)
}

// The unit under a name, among entries in the order of their names.
fn entry(entries: &[(NameId, UnitId)], name: NameId) -> Option<UnitId>
    ensures { IsSortedEntry entries.now name.n result }
{
    let at = entries.partition_point(|entry| entry.0.n < name.n);
    match entries.get(at) {
        Some(found) if found.0.n == name.n => Some(found.1),
        _ => None,
    }
}

// The unit that a name leads to from this one.
fn step(unit: &UnitNode, name: NameId) -> Option<UnitId>
    ensures { IsStep unit.now name.n result }
{
    match entry(&unit.inner, name) {
        Some(found) => Some(found),
        None => entry(&unit.aliases, name),
    }
}

// The place of a unit's variable of this name.
fn place_of_variable(nodes: &[VarNode], unit: UnitId, name: NameId) -> Option<usize>
    requires { IsNonDecreasingBy (λ d. d.node.unit.n) nodes.now }
    ensures { FindsNode (λ d. d.node) nodes.now unit.n name.n result }
{
    let from = nodes.partition_point(|d| d.node.unit.n < unit.n);
    for place in from..nodes.len() {
        let node = &nodes[place].node;
        if node.unit.n != unit.n {
            return None;
        }
        if node.name.n == name.n {
            return Some(place);
        }
    }
    None
}

// The place of a unit's parameter of this name.
fn place_of_parameter(nodes: &[ParNode], unit: UnitId, name: NameId) -> Option<usize>
    requires { IsNonDecreasingBy (λ d. d.node.unit.n) nodes.now }
    ensures { FindsNode (λ d. d.node) nodes.now unit.n name.n result }
{
    let from = nodes.partition_point(|d| d.node.unit.n < unit.n);
    for place in from..nodes.len() {
        let node = &nodes[place].node;
        if node.unit.n != unit.n {
            return None;
        }
        if node.name.n == name.n {
            return Some(place);
        }
    }
    None
}

// The place of a unit's event or observer of this name.
fn place_of_member(nodes: &[MemNode], unit: UnitId, name: NameId) -> Option<usize>
    requires { IsNonDecreasingBy (λ d. d.unit.n) nodes.now }
    ensures { FindsNode (λ d. d) nodes.now unit.n name.n result }
{
    let from = nodes.partition_point(|d| d.unit.n < unit.n);
    for place in from..nodes.len() {
        let node = &nodes[place];
        if node.unit.n != unit.n {
            return None;
        }
        if node.name.n == name.n {
            return Some(place);
        }
    }
    None
}

// The unit in which a path starts that is read in the unit `from`.
fn start_at(tree: &Tree, from: UnitId, first: PathStart) -> Option<UnitId>
    requires { from.n < length tree.now.units.items }
    ensures { (m : RootedModel) (units : List UnitPath) (u : UnitPath) → IsTreeOf m units tree.now
        → Stands units from.n u → StartsAt units (start_of first u) (unit_number result) }
{
    match first {
        PathStart::Here => Some(from),
        PathStart::Owner => tree.units[from.n as usize].owner,
        PathStart::Main => Some(UnitId::new(0)),
    }
}

/// The number of the unit to which all names but the last lead, read in the unit `from`, and the last name. None only
/// where the names name no thing of any kind. Takes no memory.
pub fn owner_and_name(
    tree: &Tree,
    from: UnitId,
    first: PathStart,
    names: &[NameId],
) -> Option<(UnitId, NameId)>
    requires tree { IsSomeTree tree.now }
    requires in_range { from.n < length tree.now.units.items }
    ensures { (m : RootedModel) (units : List UnitPath) (u : UnitPath) → IsTreeOf m units tree.now
        → Stands units from.n u → FindsOwner m units u first (numbers names.now) result }
{
    let (name, front) = names.split_last()?;
    let unit = unit_at(tree, from, first, front)?;
    Some((unit, *name))
}

/// The variable that the names name, read in the unit `from`. None exactly where they name no variable. Takes no memory.
pub fn var_at(tree: &Tree, from: UnitId, first: PathStart, names: &[NameId]) -> Option<VarId>
    requires tree { IsSomeTree tree.now }
    requires in_range { from.n < length tree.now.units.items }
    ensures { (m : RootedModel) (units : List UnitPath) (u : UnitPath) → IsTreeOf m units tree.now
        → Stands units from.n u → AnswersThing m (variables m units) is_variable u first
        (numbers names.now)
        (option_map (λ (v : VarNumber). v.n) result) }
{
    let (unit, name) = owner_and_name(tree, from, first, names)?;
    let place = place_of_variable(&tree.variables, unit, name)?;
    Some(VarId::new(place as u32))
}

/// The event that the names name, read in the unit `from`. None exactly where they name no event. Takes no memory.
pub fn event_at(tree: &Tree, from: UnitId, first: PathStart, names: &[NameId]) -> Option<EventId>
    requires tree { IsSomeTree tree.now }
    requires in_range { from.n < length tree.now.units.items }
    ensures { (m : RootedModel) (units : List UnitPath) (u : UnitPath) → IsTreeOf m units tree.now
        → Stands units from.n u → AnswersThing m (events m units) is_event u first
        (numbers names.now)
        (option_map (λ (e : EventNumber). e.n) result) }
{
    let (unit, name) = owner_and_name(tree, from, first, names)?;
    let place = place_of_member(&tree.events, unit, name)?;
    Some(EventId::new(place as u32))
}

/// The place, from 0, in the tree's list of parameters, of the parameter that the names name, read in the unit `from`. None
/// exactly where they name no parameter; a `parameter Real` is one too. Takes no memory.
pub fn par_at(tree: &Tree, from: UnitId, first: PathStart, names: &[NameId]) -> Option<u32>
    requires tree { IsSomeTree tree.now }
    requires in_range { from.n < length tree.now.units.items }
    ensures { (m : RootedModel) (units : List UnitPath) (u : UnitPath) → IsTreeOf m units tree.now
        → Stands units from.n u → AnswersThing m (parameters m units) is_parameter u first
        (numbers names.now) result }
{
    let (unit, name) = owner_and_name(tree, from, first, names)?;
    let place = place_of_parameter(&tree.parameters, unit, name)?;
    Some(place as u32)
}

/// The number, from 0, of the observer that the names name, read in the unit `from`. None exactly where they name no
/// observer. Takes no memory.
pub fn observer_at(tree: &Tree, from: UnitId, first: PathStart, names: &[NameId]) -> Option<u32>
    requires tree { IsSomeTree tree.now }
    requires in_range { from.n < length tree.now.units.items }
    ensures { (m : RootedModel) (units : List UnitPath) (u : UnitPath) → IsTreeOf m units tree.now
        → Stands units from.n u → AnswersThing m (observers m units) is_observer u first
        (numbers names.now) result }
{
    let (unit, name) = owner_and_name(tree, from, first, names)?;
    let place = place_of_member(&tree.observers, unit, name)?;
    Some(place as u32)
}
