//! What the names of bodies may be units by, looked up by body and name.

ghost use Rattle.std.specs.Prelude.{◌≡◌, [], unwrap_or, option_copied};
ghost use Rattle.unit_walks.specs.Forms.{list_at, name_place, form_at};

use ar_base::{BodyId, NameId};
use ar_syntax::Path;
use std::collections::HashMap;

/// What a name may be a unit by.
#[derive(Clone, Copy)]
pub(crate) enum UnitForm<'a> {
    /// A block or an instance of a class: its body, and the declaration whose settings hold in it,
    /// where it has one.
    Inner(BodyId, Option<(BodyId, u32)>),
    /// A copy of the unit that the path names.
    Clone(&'a Path),
    /// A second name of the unit that the path names.
    Alias(&'a Path),
}

/// A name of a body that may be a unit.
#[derive(Clone, Copy)]
pub(crate) struct UnitName<'a> {
    pub name: NameId,
    pub form: UnitForm<'a>,
}

/// The names of each body that may be units.
#[derive(Drop)]
pub(crate) struct Forms<'a> {
    /// By body, the names in member order.
    pub lists: Vec<Vec<UnitName<'a>>>,
    /// By body and name, the name's place in its list.
    pub places: HashMap<(usize, u32), usize>,
}

impl<'a> Forms<'a> {
    /// The names of the body that may be units, in member order.
    pub(crate) fn list(&self, body: BodyId) -> Option<&[UnitName<'a>]>
        ensures { unwrap_or (option_copied result) [] ≡ list_at self.now body.n }
    {
        let list = self.lists.get(body.n as usize)?;
        Some(list)
    }

    /// What the name may be a unit by in the body.
    pub(crate) fn form(&self, body: BodyId, name: NameId) -> Option<UnitForm<'a>>
        ensures { result ≡ form_at self.now body.n name.n }
    {
        let place = self.places.get(&(body.n as usize, name.n)).copied()?;
        let named = self.list(body)?.get(place)?;
        Some(named.form)
    }
}
