//! The lists of the tree.

ghost use Rattle.std.specs.Prelude.{◌<◌, ◌^◌, IfOk, length};
ghost use Rattle.hierarchy.specs.Listing.{Unfolded};
ghost use Rattle.hierarchy.specs.Tie.{IsTreeOf};
ghost use Rattle.instantiate.specs.Settled.{IsSettled};

use crate::{events, observers, parameters, variables};
use ar_base::{Cap, Memory};
use class_table::Classes;
use hierarchy::{Outline, Tree};
use std::alloc::Global;
use unit_rules::name_units;
use unit_walks::Walks;

/// The units of a main block, with what their names lead to.
#[derive(Drop)]
pub(crate) struct Settled {
    /// The units, depth first.
    pub outlines: Vec<Outline>,
    /// What each name leads to in each of them.
    pub walks: Walks,
}

/// The tree of these units, which are within the limits and keep the rules. The only error is want
/// of memory.
pub(crate) fn tree_of(alloc: Global, classes: Classes, settled: &Settled) -> Result<Tree, Memory>
    requires { length settled.now.outlines.items < 2 ^ 32 }
    ensures { (t : Unfolded) → IsSettled classes t settled.now
        → IfOk result (IsTreeOf t.model t.units) }
{
    let outlines = &settled.outlines;
    let units = name_units(alloc, &classes, outlines, &settled.walks)?;
    let variables = variables(alloc, &classes, outlines)?;
    let parameters = parameters(alloc, &classes, outlines)?;
    let events = events(alloc, &classes, outlines)?;
    let observers = observers(alloc, &classes, outlines)?;
    if parameters.len() > u32::MAX as usize {
        return Err(Memory::from(Cap::Parameters));
    }
    if observers.len() > u32::MAX as usize {
        return Err(Memory::from(Cap::Observers));
    }
    Ok(Tree {
        classes,
        units,
        variables,
        parameters,
        events,
        observers,
    })
}
