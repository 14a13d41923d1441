//! The earliest of the places of names that stand twice in a list.

ghost use Rattle.std.specs.Prelude.{◌++◌, [], ◌∷◌, List, ℕ, map, OnOk};
ghost use Rattle.ar_base.specs.declared.places.Place.{Place};
ghost use Rattle.class_table.specs.Earliest.{IsEarlierOf};
ghost use Rattle.class_table.specs.Repeating.{HasMet};
ghost use Rattle.class_table.specs.Names.{name_and_place};

use crate::earliest::earliest;
use ar_base::{Memory, NameId, Place};
use std::alloc::Global;
use std::collections::HashSet;

/// The names so far, and the earliest place of one that was there before.
#[derive(Drop)]
pub(crate) struct Repeats {
    names: HashSet<u32>,
    pub found: Option<Place>,
}

impl Repeats {
    /// No names yet. Takes no memory.
    pub(crate) fn new(alloc: Global) -> Repeats
        ensures { HasMet result [] }
    {
        Repeats {
            names: HashSet::new(alloc),
            found: None,
        }
    }

    /// Meets one more name.
    pub(crate) fn add(&mut self, name: NameId, at: Place) -> Result<(), Memory>
        ensures { (names : List (ℕ × Place)) → HasMet self.old names
            → OnOk result (HasMet self.new (names ++ (name.n, at) ∷ [])) }
    {
        if !self.names.insert(name.n)? {
            self.found = earliest(self.found, Some(at));
        }
        Ok(())
    }

    /// Meets more names.
    pub(crate) fn add_all(&mut self, list: &[(NameId, Place)]) -> Result<(), Memory>
        ensures { (names : List (ℕ × Place)) → HasMet self.old names
            → OnOk result (HasMet self.new (names ++ map name_and_place list.now)) }
    {
        for (name, at) in list {
            self.add(*name, *at)?;
        }
        Ok(())
    }
}
