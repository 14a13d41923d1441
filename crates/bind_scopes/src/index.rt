//! The index of a tree.

ghost use Rattle.std.specs.Prelude.{◌≡◌, ◌<◌, ◌^◌, List, length, option_map, Some, IfOk, OnOk};
ghost use Rattle.std.specs.HashMap.{get, Updates};
ghost use Rattle.ar_base.specs.Lists.{Stands};
ghost use Rattle.ar_base.specs.Numbers.{VarId as VarNumber};
ghost use Rattle.ar_base.specs.NumbersInside.{EventId as EventNumber};
ghost use Rattle.hierarchy.specs.Models.{RootedModel};
ghost use Rattle.hierarchy.specs.Units.{UnitPath, numbers};
ghost use Rattle.hierarchy.specs.Walks.{is_variable, is_parameter, is_event};
ghost use Rattle.hierarchy.specs.Listing.{variables, parameters, events};
ghost use Rattle.hierarchy.specs.Tie.{IsTreeOf, AnswersThing};
ghost use Rattle.hierarchy.specs.Finding.{IsSomeTree};
ghost use Rattle.bind_scopes.specs.Indexed.{is_same_index, TellsNodes, IsIndexOf};

use ar_base::{EventId, Memory, NameId, UnitId, VarId};
use ar_syntax::PathStart;
use hierarchy::{MemNode, ParNode, Tree, VarNode, owner_and_name};
use std::alloc::Global;
use std::collections::HashMap;

// Places in a list of nodes, by the numbers of their units and names.
type Places = HashMap<(u32, u32), u32>;

/// Where the variables, the parameters and the events of a tree stand in its lists, by their units
/// and names. A look-up takes the same time however many a unit has.
#[derive(Drop)]
pub struct Index {
    variables: Places,
    parameters: Places,
    events: Places,
}

// Adds the place of a node.
fn add(places: &mut Places, node: MemNode, place: u32) -> Result<(), Memory>
    ensures { OnOk result (Updates is_same_index places.old places.new
        (node.unit.n, node.name.n) (Some place)) }
{
    places.insert((node.unit.n, node.name.n), place)?;
    Ok(())
}

// The places of variables.
fn places_of_variables(alloc: Global, nodes: &[VarNode]) -> Result<Places, Memory>
    requires { length nodes.now < 2 ^ 32 }
    ensures { IfOk result (λ p. TellsNodes (λ d. d.node) nodes.now p) }
{
    let mut places = HashMap::new(alloc);
    for (place, node) in nodes.iter().enumerate() {
        add(&mut places, node.node, place as u32)?;
    }
    Ok(places)
}

// The places of parameters.
fn places_of_parameters(alloc: Global, nodes: &[ParNode]) -> Result<Places, Memory>
    requires { length nodes.now < 2 ^ 32 }
    ensures { IfOk result (λ p. TellsNodes (λ d. d.node) nodes.now p) }
{
    let mut places = HashMap::new(alloc);
    for (place, node) in nodes.iter().enumerate() {
        add(&mut places, node.node, place as u32)?;
    }
    Ok(places)
}

// The places of events.
fn places_of_events(alloc: Global, nodes: &[MemNode]) -> Result<Places, Memory>
    requires { length nodes.now < 2 ^ 32 }
    ensures { IfOk result (λ p. TellsNodes (λ d. d) nodes.now p) }
{
    let mut places = HashMap::new(alloc);
    for (place, node) in nodes.iter().enumerate() {
        add(&mut places, *node, place as u32)?;
    }
    Ok(places)
}

// The place under a unit and a name.
fn place_of(places: &Places, unit: UnitId, name: NameId) -> Option<u32>
    ensures { result ≡ get is_same_index places.now (unit.n, name.n) }
{
    places.get(&(unit.n, name.n)).copied()
}

impl Index {
    /// The index of this tree: each of its lists is read once. The error is want of memory.
    pub fn new(alloc: Global, tree: &Tree) -> Result<Index, Memory>
        requires { IsSomeTree tree.now }
        ensures { IfOk result (IsIndexOf tree.now) }
    {
        let variables = places_of_variables(alloc, &tree.variables)?;
        let parameters = places_of_parameters(alloc, &tree.parameters)?;
        let events = places_of_events(alloc, &tree.events)?;
        Ok(Index {
            variables,
            parameters,
            events,
        })
    }

    /// The variable that the names name, read in the unit `from` of the tree that this is the index
    /// of. None exactly where they name no variable. Takes no memory.
    pub fn var_at(
        &self,
        tree: &Tree,
        from: UnitId,
        first: PathStart,
        names: &[NameId],
    ) -> Option<VarId>
        requires tree { IsSomeTree tree.now }
        requires index { IsIndexOf tree.now self.now }
        requires in_range { from.n < length tree.now.units.items }
        ensures { (m : RootedModel) (units : List UnitPath) (u : UnitPath)
            → IsTreeOf m units tree.now → Stands units from.n u
            → AnswersThing m (variables m units) is_variable u first (numbers names.now)
            (option_map (λ (v : VarNumber). v.n) result) }
    {
        let (unit, name) = owner_and_name(tree, from, first, names)?;
        let place = place_of(&self.variables, unit, name)?;
        Some(VarId::new(place))
    }

    /// The place, from 0, in the tree's list of parameters, of the parameter that the names name,
    /// read in the unit `from` of the tree that this is the index of. None exactly where they name no
    /// parameter; a `parameter Real` is one too. Takes no memory.
    pub fn par_at(
        &self,
        tree: &Tree,
        from: UnitId,
        first: PathStart,
        names: &[NameId],
    ) -> Option<u32>
        requires tree { IsSomeTree tree.now }
        requires index { IsIndexOf tree.now self.now }
        requires in_range { from.n < length tree.now.units.items }
        ensures { (m : RootedModel) (units : List UnitPath) (u : UnitPath)
            → IsTreeOf m units tree.now → Stands units from.n u
            → AnswersThing m (parameters m units) is_parameter u first (numbers names.now) result }
    {
        let (unit, name) = owner_and_name(tree, from, first, names)?;
        place_of(&self.parameters, unit, name)
    }

    /// The event that the names name, read in the unit `from` of the tree that this is the index of.
    /// None exactly where they name no event. Takes no memory.
    pub fn event_at(
        &self,
        tree: &Tree,
        from: UnitId,
        first: PathStart,
        names: &[NameId],
    ) -> Option<EventId>
        requires tree { IsSomeTree tree.now }
        requires index { IsIndexOf tree.now self.now }
        requires in_range { from.n < length tree.now.units.items }
        ensures { (m : RootedModel) (units : List UnitPath) (u : UnitPath)
            → IsTreeOf m units tree.now → Stands units from.n u
            → AnswersThing m (events m units) is_event u first (numbers names.now)
            (option_map (λ (e : EventNumber). e.n) result) }
    {
        let (unit, name) = owner_and_name(tree, from, first, names)?;
        let place = place_of(&self.events, unit, name)?;
        Some(EventId::new(place))
    }
}
