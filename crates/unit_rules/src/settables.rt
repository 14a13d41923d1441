//! What may be set in the bodies of units, looked up by body and name.

ghost use Rattle.std.specs.Prelude.{◌≡◌, [], ◌∷◌, List, map, OnOk, IfOk, Some, option_and_then};
ghost use Rattle.std.specs.List.{flat_map};
ghost use Rattle.ar_base.specs.Numbers.{NameId as Name};
ghost use Rattle.ar_base.specs.declared.places.Place.{Place as PlaceOf};
ghost use Rattle.class_table.specs.Declaring.{Declared};
ghost use Rattle.class_table.specs.Members.{Site, names_of, named_at, declared_kind};
ghost use Rattle.class_table.specs.TablesInside.{HoldsDeclared, site_of};
ghost use Rattle.hierarchy.specs.Models.{RootedModel};
ghost use Rattle.hierarchy.specs.Units.{UnitPath};
ghost use Rattle.hierarchy.specs.Tie.{AreOutlines};
ghost use Rattle.unit_rules.specs.TypingInside.{KnowsPlaces};
ghost use Rattle.unit_rules.specs.Settables.{settable_of, variable_set, one_entry, settable_entries, kept_at, AddsSettables, AreSettables};

use crate::{TypePlaces, is_flow, is_state};
use ar_base::{BodyId, Memory, NameId, Place};
use ar_syntax::{Member, Setting, TypeForm};
use class_table::{Classes, Owned, TypeBody, owned_at};
use hierarchy::Outline;
use std::alloc::Global;
use std::collections::HashMap;

/// What a word of a target may name.
#[derive(Clone, Copy)]
pub(crate) enum Settable {
    /// A block, an instance or a clone, into which the target goes on.
    Inner,
    /// A parameter, which is set by its name.
    Parameter,
    /// A state variable, which is set by its `init`.
    State,
    /// A flow, which is set by its `reset`.
    Flow,
}

/// What may be set in the bodies of units.
#[derive(Drop)]
pub(crate) struct Settables {
    /// By body and name.
    pub kept: HashMap<(u32, u32), Settable>,
}

// What a variable with these settings is.
fn variable(settings: &[Setting]) -> Option<Settable>
    ensures { result ≡ variable_set settings.now }
{
    if is_state(settings) {
        Some(Settable::State)
    } else if is_flow(settings) {
        Some(Settable::Flow)
    } else {
        None
    }
}

// What the names of a declaration by this type, with these settings, are.
fn declared(
    form: TypeForm,
    settings: &[Setting],
    classes: &Classes,
    places: &TypePlaces,
) -> Option<Settable>
    ensures { (d : Declared) (s : Site)
        → HoldsDeclared d classes.now → KnowsPlaces classes.now.types.items places.now
        → result ≡ option_and_then settable_of (declared_kind d s form settings.now) }
{
    match form {
        TypeForm::Boolean => variable(settings),
        TypeForm::Integer => None,
        TypeForm::Named(name) => match places.find(&classes.types, name) {
            Some(TypeBody::Domain(_)) => variable(settings),
            Some(TypeBody::Class(_)) => Some(Settable::Inner),
            None => None,
        },
    }
}

impl Settables {
    /// What may be set by the name, or gone into, in the body. Takes no memory.
    pub(crate) fn find(&self, body: BodyId, name: NameId) -> Option<Settable>
        ensures { result ≡ kept_at self.now body.n name.n }
    {
        self.kept.get(&(body.n, name.n)).copied()
    }

    // Keeps what a name of a body is.
    fn keep(&mut self, body: BodyId, name: NameId, settable: Settable) -> Result<(), Memory>
        ensures { OnOk result (AddsSettables body.n ((name.n, settable) ∷ []) self.old self.new) }
    {
        self.kept.insert((body.n, name.n), settable)?;
        Ok(())
    }

    // Keeps what the names of a declaration of a body are, where they may be set.
    fn keep_all(
        &mut self,
        body: BodyId,
        names: &[(NameId, Place)],
        kind: Option<Settable>,
    ) -> Result<(), Memory>
        ensures { OnOk result (AddsSettables body.n
            (flat_map (λ (n : Name × PlaceOf). one_entry n.0.n kind) names.now) self.old self.new) }
    {
        let Some(settable) = kind else {
            return Ok(());
        };
        for (name, _) in names {
            self.keep(body, *name, settable)?;
        }
        Ok(())
    }

    // Keeps what the names of a member are.
    fn add_member(
        &mut self,
        body: BodyId,
        owned: &Owned,
        classes: &Classes,
        places: &TypePlaces,
    ) -> Result<(), Memory>
        ensures { (d : Declared) (s : Site)
            → HoldsDeclared d classes.now → KnowsPlaces classes.now.types.items places.now
            → OnOk result (AddsSettables body.n (settable_entries (names_of d s (Some owned.now)))
            self.old self.new) }
    {
        let member = match owned {
            Owned::Nested(name, _, _) => return self.keep(body, *name, Settable::Inner),
            Owned::Plain(member) => member,
        };
        match member {
            Member::Declare(type_name, names, settings) => {
                let kind = declared(type_name.form, settings, classes, places);
                self.keep_all(body, names, kind)
            }
            Member::Clones(_, name, _) => self.keep(body, *name, Settable::Inner),
            Member::Parameter(_, name, _, _) => self.keep(body, *name, Settable::Parameter),
            Member::Kept(name, _, _) => self.keep(body, *name, Settable::Parameter),
            Member::Extends(_, _) => Ok(()),
            Member::Block(_) => Ok(()),
            Member::Embeds(_, _, _) => Ok(()),
            Member::Event(_, _, _) => Ok(()),
            Member::Observer(_, _, _, _) => Ok(()),
            Member::Hide(_) => Ok(()),
            Member::Local(_, _, _, _) => Ok(()),
            Member::Sync(_, _, _) => Ok(()),
            Member::Assert(_) => Ok(()),
        }
    }

    // Keeps what the names of the members at these sites are.
    fn add_sites(
        &mut self,
        body: BodyId,
        sites: &[(BodyId, u32)],
        classes: &Classes,
        places: &TypePlaces,
    ) -> Result<(), Memory>
        ensures { (d : Declared)
            → HoldsDeclared d classes.now → KnowsPlaces classes.now.types.items places.now
            → OnOk result (AddsSettables body.n (settable_entries (named_at d (map site_of sites.now)))
            self.old self.new) }
    {
        for site in sites {
            if let Some(owned) = owned_at(&classes.bodies, *site) {
                self.add_member(body, owned, classes, places)?;
            }
        }
        Ok(())
    }

    /// What may be set in these units. Takes memory linear in the names of their bodies.
    pub(crate) fn new(
        alloc: Global,
        classes: &Classes,
        outlines: &[Outline],
    ) -> Result<Settables, Memory>
        ensures { (m : RootedModel) (units : List UnitPath)
            → AreOutlines m units classes.now outlines.now
            → IfOk result (AreSettables m units) }
    {
        let places = TypePlaces::new(alloc, &classes.types)?;
        let mut settables = Settables {
            kept: HashMap::new(alloc),
        };
        for outline in outlines {
            if let Some(body) = classes.bodies.get(outline.body.n as usize) {
                settables.add_sites(outline.body, &body.all, classes, &places)?;
            }
        }
        Ok(settables)
    }
}
