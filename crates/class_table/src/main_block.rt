//! The main block.

ghost use Rattle.std.specs.Prelude.{◌≡◌, ℕ, Option, Some, map, option_map, IfSome, IfNone, IsTrue, ◌↔◌};
ghost use Rattle.ar_base.specs.Lists.{Along, HasNo, IsOneOf};
ghost use Rattle.class_table.specs.Declaring.{Declared};
ghost use Rattle.class_table.specs.Tables.{IsMain};
ghost use Rattle.class_table.specs.TablesInside.{IsBodyOf};
ghost use Rattle.class_table.specs.Main.{IsNamedBlock};

use crate::tables::Body;
use ar_base::{BodyId, NameId, Names};

/// The top-level block of this name, else the last one. Takes no memory.
pub(crate) fn main_block(
    names: &Names,
    bodies: &[Body],
    blocks: &[BodyId],
    main: Option<&str>,
) -> Option<BodyId>
    ensures some { (d : Declared) → Along IsBodyOf bodies.now d.bodies
        → map (λ b. b.n) blocks.now ≡ d.blocks
        → IfSome result (λ b. IsMain names.now d (option_map (λ t. t.now) main.entry) b.n) }
    ensures none { (d : Declared) → Along IsBodyOf bodies.now d.bodies
        → map (λ b. b.n) blocks.now ≡ d.blocks
        → IfNone result ((b : ℕ) → IsMain names.now d (option_map (λ t. t.now) main.entry) b → ⊥) }
{
    match main {
        None => blocks.last().copied(),
        Some(text) => match names.find(text) {
            None => None,
            Some(name) => block_named(bodies, blocks, name),
        },
    }
}

// The first of these blocks that has the name.
fn block_named(bodies: &[Body], blocks: &[BodyId], name: NameId) -> Option<BodyId>
    ensures some { IfSome result (λ b. IsOneOf blocks.now b × IsNamedBlock bodies.now name.n b) }
    ensures none { IfNone result (HasNo blocks.now (IsNamedBlock bodies.now name.n)) }
{
    for block in blocks {
        if is_named(bodies, *block, name) {
            return Some(*block);
        }
    }
    None
}

// Whether the body has the name.
fn is_named(bodies: &[Body], block: BodyId, name: NameId) -> bool
    ensures { IsTrue result ↔ IsNamedBlock bodies.now name.n block }
{
    match bodies.get(block.n as usize) {
        Some(body) => body.name.n == name.n,
        None => false,
    }
}
