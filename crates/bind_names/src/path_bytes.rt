//! How long the paths of a model are together.

use crate::paths::text_of;
use ar_base::{Memory, Names, UnitId};
use hierarchy::{MemNode, Tree};
use std::alloc::Global;

/// The bytes of the paths of all units, variables, events and observers, and of what stands before
/// names in units. The error is want of memory.
pub(crate) fn path_bytes(alloc: Global, tree: &Tree) -> Result<usize, Memory> {
    let names = &tree.classes.names;
    let fronts = front_bytes(alloc, tree)?;
    let mut total = variables_bytes(tree, &fronts)
        .saturating_add(things_bytes(names, &fronts, &tree.events))
        .saturating_add(things_bytes(names, &fronts, &tree.observers));
    // Each unit has its path, and what stands before names in it.
    for bytes in &fronts {
        total = total.saturating_add(*bytes).saturating_add(*bytes);
    }
    Ok(total)
}

// The number at the place of a unit, 0 past the end.
fn bytes_there(fronts: &[usize], unit: UnitId) -> usize {
    match fronts.get(unit.n as usize) {
        Some(bytes) => *bytes,
        None => 0,
    }
}

// The bytes of what stands before a name in each unit: the unit's path and a dot, or nothing in the
// main block. The error is want of memory.
fn front_bytes(alloc: Global, tree: &Tree) -> Result<Vec<usize>, Memory> {
    let mut fronts: Vec<usize> = Vec::new(alloc);
    for node in &tree.units {
        let bytes = match node.owner {
            Some(owner) => bytes_there(&fronts, owner)
                .saturating_add(text_of(&tree.classes.names, node.name).len())
                .saturating_add(1),
            None => 0,
        };
        fronts.push(bytes)?;
    }
    Ok(fronts)
}

// The bytes of the path of a thing.
fn thing_bytes(names: &Names, fronts: &[usize], node: &MemNode) -> usize {
    bytes_there(fronts, node.unit).saturating_add(text_of(names, node.name).len())
}

// The bytes of the paths of these things.
fn things_bytes(names: &Names, fronts: &[usize], nodes: &[MemNode]) -> usize {
    let mut total: usize = 0;
    for node in nodes {
        total = total.saturating_add(thing_bytes(names, fronts, node));
    }
    total
}

// The bytes of the paths of the variables.
fn variables_bytes(tree: &Tree, fronts: &[usize]) -> usize {
    let mut total: usize = 0;
    for variable in &tree.variables {
        total = total.saturating_add(thing_bytes(&tree.classes.names, fronts, &variable.node));
    }
    total
}
