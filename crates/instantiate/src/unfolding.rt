//! The call that unfolds the main block.

ghost use Rattle.std.specs.Prelude.{◌≤◌, IfOk, length};
ghost use Rattle.ar_base.specs.StagesInside.{Meets};
ghost use Rattle.hierarchy.specs.Models.{RootedModel};
ghost use Rattle.hierarchy.specs.ModelsInside.{IsKeptTable};
ghost use Rattle.instantiate.specs.Settled.{IsSettled};
ghost use Rattle.instantiate.specs.Unfolding.{Instantiates};
ghost use Rattle.instantiate.specs.MadeTrees.{IsTreeFor};

use crate::listing::{Settled, tree_of};
use crate::rules::keep_rules;
use ar_base::RuleFault;
use class_table::Classes;
use hierarchy::Tree;
use std::alloc::Global;
use unit_rules::fit;
use unit_walks::{settle, units};

/// The tree of the main block of a table that keeps the rules L1 to L5: its units depth first, and
/// its variables, parameters, events and observers by unit and member, each with the outermost value
/// in force.
///
/// Refused with the first limit that is passed, of `depth` or `units`, `variables`, `events` and
/// `tree nodes` in this order; then with the least broken rule of L6 to L9, at the earliest place
/// where it is broken.
pub fn instantiate(alloc: Global, classes: Classes) -> Result<Tree, RuleFault>
    ensures { (m : RootedModel) → IsKeptTable m classes → Meets Instantiates IsTreeFor m result }
{
    let settled = settled_units(alloc, &classes)?;
    let tree = tree_of(alloc, classes, &settled)?;
    Ok(tree)
}

// The units of the main block, where they are within the limits and keep the rules.
fn settled_units(alloc: Global, classes: &Classes) -> Result<Settled, RuleFault>
    ensures settled { (m : RootedModel) → IsKeptTable m classes.now
        → Meets Instantiates (IsSettled classes.now) m result }
    ensures few { IfOk result (λ s. length s.outlines.items ≤ 16384) }
{
    let mut unfolded = units(alloc, classes)?;
    fit(alloc, classes, &unfolded.outlines)?;
    let walks = settle(alloc, &mut unfolded)?;
    keep_rules(alloc, classes, &unfolded.outlines, &walks)?;
    Ok(Settled {
        outlines: unfolded.outlines,
        walks,
    })
}
