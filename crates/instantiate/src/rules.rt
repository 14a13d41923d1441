//! The rules that the units of a main block keep.

ghost use Rattle.std.specs.Prelude.{◌≤◌, List, length};
ghost use Rattle.hierarchy.specs.Models.{RootedModel};
ghost use Rattle.hierarchy.specs.Units.{UnitPath};
ghost use Rattle.hierarchy.specs.Tie.{AreOutlines};
ghost use Rattle.unit_walks.specs.Settling.{AreOutcomes};
ghost use Rattle.instantiate.specs.Settled.{AnswersUnitRules};

use ar_base::{RuleFault, keep};
use class_table::Classes;
use hierarchy::Outline;
use std::alloc::Global;
use unit_rules::{first_looping, first_lost, first_wrong_declaration, first_wrong_setting};
use unit_walks::Walks;

/// Tests the rules L6 to L9 in these units: the least that is broken is told, at the earliest place
/// where it is. Want of memory may be told in place of any answer.
pub(crate) fn keep_rules(
    alloc: Global,
    classes: &Classes,
    outlines: &[Outline],
    walks: &Walks,
) -> Result<(), RuleFault>
    requires { length outlines.now ≤ 16384 }
    ensures { (m : RootedModel) (units : List UnitPath)
        → AreOutlines m units classes.now outlines.now
        → AreOutcomes m units walks.now → AnswersUnitRules m units result }
{
    keep(6, first_lost(classes, outlines, walks))?;
    keep(7, first_looping(classes, outlines, walks))?;
    keep(8, first_wrong_declaration(alloc, classes, outlines)?)?;
    keep(9, first_wrong_setting(alloc, classes, outlines, walks)?)
}
