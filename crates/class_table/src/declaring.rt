//! What a model declares.

ghost use Rattle.std.specs.Prelude.{◌≤◌, length, IfOk};
ghost use Rattle.class_table.specs.Laying.{AreParts};

use crate::laying::lay_unit;
use crate::symbols::Symbols;
use crate::tables::{Body, TypeBody};
use ar_base::{BodyId, Memory, NameId};
use ar_syntax::Item;
use std::alloc::Global;

/// The bodies, types and symbols of a model, and the bodies of its top-level blocks.
#[derive(Drop)]
pub(crate) struct Declared {
    pub bodies: Vec<Body>,
    pub types: Vec<(NameId, TypeBody)>,
    pub symbols: Vec<NameId>,
    pub blocks: Vec<BodyId>,
}

/// Takes the items apart: bodies are numbered in the order of their headings, symbols in that of their first use.
pub(crate) fn declare(alloc: Global, items: Vec<Item>) -> Result<Declared, Memory>
    ensures parts { IfOk result (AreParts items.items) }
    ensures few { IfOk result (λ d. length d.bodies.items ≤ 16777216) }
{
    let mut bodies = Vec::new(alloc);
    let mut types = Vec::new(alloc);
    let mut symbols = Symbols::new(alloc);
    let mut blocks = Vec::new(alloc);
    for item in items {
        match item {
            Item::Domain(domain) => {
                let body = symbols.domain(alloc, &domain.body)?;
                types.push((domain.name, body))?;
            }
            Item::Class(unit) => {
                let name = unit.name;
                let body = lay_unit(alloc, &mut bodies, unit)?;
                types.push((name, TypeBody::Class(body)))?;
            }
            Item::Block(unit) => blocks.push(lay_unit(alloc, &mut bodies, unit)?)?,
        }
    }
    Ok(Declared {
        bodies,
        types,
        symbols: symbols.list,
        blocks,
    })
}
