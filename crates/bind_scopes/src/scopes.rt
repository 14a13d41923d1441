//! What paths name in the units of a tree.

ghost use Rattle.std.specs.Prelude.{◌≡◌, ◌↔◌, IsTrue, ◌<◌, ℕ, nat_eq, if◌then◌else◌, List, map, length, slice_get, option_map, Some, None, IfOk, IfSome, IfNone};
ghost use Rattle.std.specs.HashMap.{get};
ghost use Rattle.ar_base.specs.Lists.{AreDifferent, Stands};
ghost use Rattle.ar_base.specs.NumbersInside.{EventId as EventNumber};
ghost use Rattle.hierarchy.specs.Finding.{IsSomeTree};
ghost use Rattle.hierarchy.specs.Models.{RootedModel};
ghost use Rattle.hierarchy.specs.Units.{UnitPath, Thing, numbers};
ghost use Rattle.hierarchy.specs.Walks.{PassesTest, is_event};
ghost use Rattle.hierarchy.specs.Listing.{parameters, events};
ghost use Rattle.source_meaning.specs.Means.{is_valued};
ghost use Rattle.source_meaning.specs.Kinds.{kind_of_type};
ghost use Rattle.source_meaning.specs.Tested.{Scope as Meant, MayName};
ghost use Rattle.hierarchy.specs.Tie.{IsTreeOf, AnswersThing};
ghost use Rattle.bind_scopes.specs.Scopes.{AreScopes, HasScopes, IsNamedIn, IsScope, named_in, scoped_in, allowed as allowed_in, name_in, first_named, symbol_by, is_read_in};
ghost use Rattle.bind_scopes.specs.Searching.{parameter_in};

use crate::Index;
use crate::kinds::kind_of_domain;
use crate::members::{Names, names_of_members};
use crate::sites::is_read;
use ar_base::{EventId, Memory, NameId, UnitId, VarId};
use ar_syntax::{Path, PathStart, TypeForm};
use class_table::TypeBody;
use hierarchy::Tree;
use std::alloc::Global;
use std::collections::HashMap;
use typed_expr::ValueKind;
use unit_rules::TypePlaces;

/// What a path in an expression names.
#[derive(Clone, Copy)]
pub enum Named {
    /// A variable.
    Variable(VarId),
    /// A parameter with a value that is read, by its place in the tree's list.
    Parameter(u32),
    /// A symbol, by its number.
    Symbol(u32),
}

/// What an expression may name, besides symbols.
#[derive(Clone, Copy)]
pub enum Scope {
    /// All variables and parameters.
    Everything,
    /// Parameters of its unit, each by its name alone.
    Constants,
    /// Of these, those that come before the parameter at this place in the tree's list.
    Before(u32),
}

/// The symbols of a tree, the names of its members and its index, to tell what paths name.
#[derive(Drop)]
pub struct Scopes<'a> {
    /// The tree.
    pub tree: &'a Tree,
    symbols: HashMap<u32, u32>,
    members: Names,
    types: TypePlaces,
    pub(crate) index: Index,
}

// The numbers of these symbols by their names.
fn numbers_of(alloc: Global, list: &[NameId]) -> Result<HashMap<u32, u32>, Memory>
    requires { AreDifferent (numbers list.now) }
    ensures at { IfOk result (λ t. (x k : ℕ) → get nat_eq t x ≡ Some k
        → Stands (map (λ n. n.n) list.now) k x) }
    ensures all { IfOk result (λ t. (x k : ℕ) → get nat_eq t x ≡ None
        → Stands (map (λ n. n.n) list.now) k x → ⊥) }
{
    let mut numbers = HashMap::new(alloc);
    for (place, name) in list.iter().enumerate() {
        numbers.insert(name.n, place as u32)?;
    }
    Ok(numbers)
}

impl<'a> Scopes<'a> {
    /// What paths name in this tree.
    pub fn new(alloc: Global, tree: &'a Tree) -> Result<Scopes<'a>, Memory>
        requires { IsSomeTree tree.now }
        ensures tree { IfOk result (λ s. s.tree.now ≡ tree.now) }
        ensures scopes { (m : RootedModel) (units : List UnitPath) → IsTreeOf m units tree.now
            → IfOk result (AreScopes m units) }
    {
        let symbols = numbers_of(alloc, &tree.classes.symbols)?;
        let members = names_of_members(alloc, tree)?;
        let types = TypePlaces::new(alloc, &tree.classes.types)?;
        let index = Index::new(alloc, tree)?;
        Ok(Scopes {
            tree,
            symbols,
            members,
            types,
            index,
        })
    }

    // The number of the symbol that a path names: one name that the unit gives nothing.
    fn symbol(&self, unit: UnitId, path: &Path) -> Option<u32>
        ensures { result ≡ symbol_by self.now (slice_get self.now.tree.now.units.items unit.n)
            path.now.start (numbers path.now.names.items) }
    {
        let name = lone_name(path)?;
        let node = self.tree.units.get(unit.n as usize)?;
        if self.members.contains(&(node.body.n, name.n)) {
            return None;
        }
        self.symbols.get(&name.n).copied()
    }

    /// Whether the parameter at this place of the tree's list has a value that is read, which a
    /// `parameter Real` has not. Takes no memory.
    pub fn is_read(&self, place: u32) -> bool
        ensures value { result ≡ is_read_in self.now.tree.now place }
        ensures valued { (m : RootedModel) (units : List UnitPath) (t : Thing)
            → AreScopes m units self.now → Stands (parameters m units) place t
            → IsTrue result ↔ PassesTest m is_valued t }
    {
        match self.tree.parameters.get(place as usize) {
            Some(node) => is_read(&self.tree.classes, node.node.source),
            None => false,
        }
    }

    /// The kind of the values of a type: none for a name that is no domain's. Takes no memory.
    pub fn kind_of_type(&self, form: TypeForm) -> Option<ValueKind>
        ensures { (m : RootedModel) (units : List UnitPath) → AreScopes m units self.now
            → result ≡ kind_of_type m form }
    {
        match form {
            TypeForm::Boolean => Some(ValueKind::Truth),
            TypeForm::Integer => Some(ValueKind::Whole),
            TypeForm::Named(name) => match self.types.find(&self.tree.classes.types, name) {
                Some(TypeBody::Domain(domain)) => Some(kind_of_domain(domain)),
                Some(TypeBody::Class(_)) => None,
                None => None,
            },
        }
    }

    /// What the path names in the unit, where every variable, every parameter with a value that is
    /// read, and every symbol may be named. None exactly where it names none of these. Takes no
    /// memory.
    pub fn named(&self, unit: UnitId, path: &Path) -> Option<Named>
        requires scopes { HasScopes self.now }
        requires in_range { unit.n < length self.now.tree.now.units.items }
        ensures value { result ≡ named_in self.now unit.n path.now }
        ensures names { (m : RootedModel) (units : List UnitPath) (u : UnitPath)
            → AreScopes m units self.now → Stands units unit.n u
            → IsNamedIn m units u path.now result }
    {
        match self.index.var_at(self.tree, unit, path.start, &path.names) {
            Some(variable) => Some(Named::Variable(variable)),
            None => self.constant(unit, path),
        }
    }

    /// The event that the names name, read in the unit. None exactly where they name no event. Takes
    /// no memory.
    pub fn event_at(&self, unit: UnitId, start: PathStart, names: &[NameId]) -> Option<EventId>
        requires scopes { HasScopes self.now }
        requires in_range { unit.n < length self.now.tree.now.units.items }
        ensures { (m : RootedModel) (units : List UnitPath) (u : UnitPath)
            → IsTreeOf m units self.now.tree.now → Stands units unit.n u
            → AnswersThing m (events m units) is_event u start (numbers names.now)
            (option_map (λ (e : EventNumber). e.n) result) }
    {
        self.index.event_at(self.tree, unit, start, names)
    }

    // What a path names in the unit that names no variable.
    fn constant(&self, unit: UnitId, path: &Path) -> Option<Named>
        requires scopes { HasScopes self.now }
        requires in_range { unit.n < length self.now.tree.now.units.items }
        ensures { result ≡ first_named self.now.tree.now None
            (parameter_in self.now.tree.now unit.n path.now)
            (symbol_by self.now (slice_get self.now.tree.now.units.items unit.n) path.now.start
            (numbers path.now.names.items)) }
    {
        match self.index.par_at(self.tree, unit, path.start, &path.names) {
            Some(place) => {
                if self.is_read(place) {
                    Some(Named::Parameter(place))
                } else {
                    None
                }
            }
            None => match self.symbol(unit, path) {
                Some(symbol) => Some(Named::Symbol(symbol)),
                None => None,
            },
        }
    }

    /// What the path names in an expression of this scope in the unit. None exactly where it names
    /// nothing that such an expression may name. Takes no memory.
    pub fn scoped(&self, unit: UnitId, scope: Scope, path: &Path) -> Option<Named>
        requires scopes { HasScopes self.now }
        requires in_range { unit.n < length self.now.tree.now.units.items }
        ensures value { result ≡ scoped_in self.now unit.n scope path.now }
        ensures none { (m : RootedModel) (units : List UnitPath) (u : UnitPath) (s : Meant)
            → AreScopes m units self.now → Stands units unit.n u → IsScope m units u scope s
            → IfNone result (MayName m u s path.now → ⊥) }
        ensures some { (m : RootedModel) (units : List UnitPath) (u : UnitPath) (s : Meant)
            → AreScopes m units self.now → Stands units unit.n u → IsScope m units u scope s
            → IfSome result (λ named. MayName m u s path.now
            × IsNamedIn m units u path.now (Some named)) }
    {
        self.narrowed(unit, scope, path)
    }

    // What the path names in an expression of this scope, as the lists of the tree tell it.
    fn narrowed(&self, unit: UnitId, scope: Scope, path: &Path) -> Option<Named>
        requires scopes { HasScopes self.now }
        requires in_range { unit.n < length self.now.tree.now.units.items }
        ensures { result ≡ scoped_in self.now unit.n scope path.now }
    {
        let named = self.named(unit, path)?;
        if is_allowed(named, scope, lone_name(path).is_some()) {
            Some(named)
        } else {
            None
        }
    }
}

// The name of a path that is one name, read in the unit itself.
fn lone_name(path: &Path) -> Option<NameId>
    ensures { option_map (λ x. x.n) result ≡ name_in path.now.start (numbers path.now.names.items) }
{
    match (path.start, path.names.as_slice()) {
        (PathStart::Here, [name]) => Some(*name),
        _ => None,
    }
}

// Whether an expression of this scope may name this, by a path that is one name or not.
fn is_allowed(named: Named, scope: Scope, single: bool) -> bool
    ensures { (if result then Some named else None) ≡ allowed_in scope single (Some named) }
{
    match scope {
        Scope::Everything => true,
        Scope::Constants => match named {
            Named::Symbol(_) => true,
            Named::Parameter(_) => single,
            Named::Variable(_) => false,
        },
        Scope::Before(place) => match named {
            Named::Symbol(_) => true,
            Named::Parameter(earlier) => single && earlier < place,
            Named::Variable(_) => false,
        },
    }
}
