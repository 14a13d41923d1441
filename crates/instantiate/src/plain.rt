//! The events and observers of a tree.

ghost use Rattle.std.specs.Prelude.{◌<◌, ◌^◌, List, length, IfOk};
ghost use Rattle.ar_base.specs.Lists.{Along};
ghost use Rattle.hierarchy.specs.Models.{RootedModel};
ghost use Rattle.hierarchy.specs.Units.{UnitPath};
ghost use Rattle.hierarchy.specs.Listing.{events as events_of, observers as observers_of};
ghost use Rattle.hierarchy.specs.Tie.{IsPlainNode};
ghost use Rattle.hierarchy.specs.Tie.{AreOutlines};

use crate::nodes::{Listed, nodes};
use ar_base::Memory;
use class_table::Classes;
use hierarchy::{MemNode, Outline};
use std::alloc::Global;
use unit_rules::TypePlaces;

/// The events of these units, hidden ones included, by unit and member.
pub fn events(
    alloc: Global,
    classes: &Classes,
    outlines: &[Outline],
) -> Result<Vec<MemNode>, Memory>
    requires { length outlines.now < 2 ^ 32 }
    ensures { (m : RootedModel) (units : List UnitPath)
        → AreOutlines m units classes.now outlines.now
        → IfOk result (λ v. Along (IsPlainNode m units) (events_of m units) v.items) }
{
    let places = TypePlaces::new(alloc, &classes.types)?;
    nodes(alloc, classes, &places, outlines, Listed::Events)
}

/// The observers of these units, by unit and member.
pub fn observers(
    alloc: Global,
    classes: &Classes,
    outlines: &[Outline],
) -> Result<Vec<MemNode>, Memory>
    requires { length outlines.now < 2 ^ 32 }
    ensures { (m : RootedModel) (units : List UnitPath)
        → AreOutlines m units classes.now outlines.now
        → IfOk result (λ v. Along (IsPlainNode m units) (observers_of m units) v.items) }
{
    let places = TypePlaces::new(alloc, &classes.types)?;
    nodes(alloc, classes, &places, outlines, Listed::Observers)
}
