//! Types by their names.

ghost use Rattle.std.specs.Prelude.{◌≡◌, IfOk, option_map};
ghost use Rattle.ar_base.specs.Lists.{Along};
ghost use Rattle.class_table.specs.Declaring.{Declared};
ghost use Rattle.class_table.specs.Members.{class_named};
ghost use Rattle.class_table.specs.TablesInside.{IsNamedType};
ghost use Rattle.class_table.specs.Kinds.{KnowsTypes, kind_looked_up};
ghost use Rattle.class_table.specs.Kinding.{kind_of_type_body};

use crate::tables::TypeBody;
use ar_base::{BodyId, Memory, NameId};
use std::alloc::Global;
use std::collections::HashMap;

/// What a name names.
#[derive(Clone, Copy)]
pub(crate) enum Kind {
    /// A domain.
    Domain,
    /// A class, by its body.
    Class(BodyId),
}

/// What the names of types name.
#[derive(Drop)]
pub(crate) struct TypeKinds {
    kinds: HashMap<u32, Kind>,
}

fn kind_of(body: &TypeBody) -> Kind
    ensures { result ≡ kind_of_type_body body.now }
{
    match body {
        TypeBody::Domain(_) => Kind::Domain,
        TypeBody::Class(body) => Kind::Class(*body),
    }
}

impl TypeKinds {
    /// The kinds of these types; of two of one name the first counts.
    pub(crate) fn new(alloc: Global, types: &[(NameId, TypeBody)]) -> Result<TypeKinds, Memory>
        ensures { (d : Declared) → Along (IsNamedType d.symbols) types.now d.types
            → IfOk result (KnowsTypes d) }
    {
        let mut kinds = TypeKinds {
            kinds: HashMap::new(alloc),
        };
        for (name, body) in types {
            if !kinds.kinds.contains_key(&name.n) {
                kinds.kinds.insert(name.n, kind_of(body))?;
            }
        }
        Ok(kinds)
    }

    /// What the name names, where it is a type's. Takes no memory.
    pub(crate) fn kind(&self, name: NameId) -> Option<Kind>
        ensures { result ≡ kind_looked_up self.now name.n }
    {
        self.kinds.get(&name.n).copied()
    }

    /// The body of the class of this name. Takes no memory.
    pub(crate) fn class(&self, name: NameId) -> Option<BodyId>
        ensures { (d : Declared) → KnowsTypes d self.now
            → option_map (λ b. b.n) result ≡ class_named d name.n }
    {
        match self.kind(name) {
            Some(Kind::Class(body)) => Some(body),
            _ => None,
        }
    }
}
