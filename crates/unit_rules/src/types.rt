//! Types by their names.

ghost use Rattle.std.specs.Prelude.{◌≡◌, IfOk, option_copied};
ghost use Rattle.std.specs.HashMap as hash;
ghost use Rattle.ar_base.specs.Lists.{Along};
ghost use Rattle.class_table.specs.Declaring.{Declared};
ghost use Rattle.class_table.specs.Members.{type_named};
ghost use Rattle.class_table.specs.TablesInside.{IsNamedType};
ghost use Rattle.unit_rules.specs.Typing.{bounds_variables};
ghost use Rattle.unit_rules.specs.TypingInside.{KnowsPlaces, IsFound};

use ar_base::{Memory, NameId};
use ar_syntax::TypeForm;
use class_table::TypeBody;
use std::alloc::Global;
use std::collections::HashMap;

/// The places of types in the list of a table, by their names.
#[derive(Drop)]
pub struct TypePlaces {
    /// The place of the first type of each name.
    pub places: HashMap<u32, usize>,
}

impl TypePlaces {
    /// The places of these types; of two of one name the first counts.
    pub fn new(alloc: Global, types: &[(NameId, TypeBody)]) -> Result<TypePlaces, Memory>
        ensures { IfOk result (KnowsPlaces types.now) }
    {
        let mut known = TypePlaces {
            places: HashMap::new(alloc),
        };
        for (place, (name, _)) in types.iter().enumerate() {
            if !known.places.contains_key(&name.n) {
                known.places.insert(name.n, place)?;
            }
        }
        Ok(known)
    }

    /// The type of this name, among the types of the table, where there is one. Takes no memory.
    pub fn find<'a>(&self, types: &'a [(NameId, TypeBody)], name: NameId) -> Option<&'a TypeBody>
        ensures { (d : Declared) → Along (IsNamedType d.symbols) types.now d.types
            → KnowsPlaces types.now self.now
            → IsFound d.symbols (type_named d name.n) (option_copied result) }
    {
        let place = *self.places.get(&name.n)?;
        match types.get(place) {
            Some(found) => Some(&found.1),
            None => None,
        }
    }

    /// Whether a declaration by this type, among the types of the table, declares variables. Takes no memory.
    pub fn is_domain(&self, types: &[(NameId, TypeBody)], form: TypeForm) -> bool
        ensures { (d : Declared) → Along (IsNamedType d.symbols) types.now d.types
            → KnowsPlaces types.now self.now
            → result ≡ bounds_variables d form }
    {
        match form {
            TypeForm::Boolean => true,
            TypeForm::Integer => false,
            TypeForm::Named(name) => match self.find(types, name) {
                Some(TypeBody::Domain(_)) => true,
                Some(TypeBody::Class(_)) => false,
                None => false,
            },
        }
    }
}
