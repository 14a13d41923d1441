//! The limits of the tree of units.

ghost use Rattle.std.specs.Prelude.{◌≡◌, ◌<◌, ◌≤◌, ℕ, List, MatchResult};
ghost use Rattle.ar_base.specs.Counts.{limit_of};
ghost use Rattle.ar_base.specs.declared.faults.RuleFault.TheVariants.{Limit};
ghost use Rattle.hierarchy.specs.Models.{RootedModel};
ghost use Rattle.hierarchy.specs.Units.{UnitPath};
ghost use Rattle.unit_rules.specs.Counting.{capped};
ghost use Rattle.hierarchy.specs.Tie.{AreOutlines};
ghost use Rattle.unit_rules.specs.LimitsInside.{AnswersLimits};

use crate::totals::totals;
use ar_base::{Count, RuleFault};
use class_table::Classes;
use hierarchy::Outline;
use std::alloc::Global;

/// Tests the limits of the tree of these units: first how many variables it has, then how many events, then how many
/// nodes. The names of a declaration of variables count whatever its settings are.
///
/// The first count that passes its limit is told. Want of memory may be told in place of any answer.
pub fn fit(alloc: Global, classes: &Classes, outlines: &[Outline]) -> Result<(), RuleFault>
    ensures { (m : RootedModel) (units : List UnitPath)
        → AreOutlines m units classes.now outlines.now
        → AnswersLimits m units result }
{
    let counts = totals(alloc, classes, outlines)?;
    within(Count::Variables, counts.variables)?;
    within(Count::Events, counts.events)?;
    within(Count::TreeNodes, counts.nodes)
}

// Refuses the number where it passes the limit of the count.
fn within(count: Count, number: u64) -> Result<(), RuleFault>
    ensures { (n : ℕ) → number ≡ capped n
        → MatchResult result (λ _. n ≤ limit_of count)
        (λ e. (limit_of count < n) × (e ≡ Limit count)) }
{
    if number > u64::from(count.limit()) {
        return Err(RuleFault::Limit(count));
    }
    Ok(())
}
