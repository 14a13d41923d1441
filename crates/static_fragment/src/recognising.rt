//! From a flat system to the trees of its modes.

ghost use Rattle.std.specs.Prelude.{ℕ, IfOk, IfErr};
ghost use Rattle.ar_meaning.specs.Systems.{System};
ghost use Rattle.gts_core.specs.View.{Views};
ghost use Rattle.mode_search.specs.Events.{plain_event_numbers};
ghost use Rattle.mode_trees.specs.Views.{trees_of, number_in};
ghost use Rattle.mode_trees.specs.Ways.{OwnTheirWays};
ghost use Rattle.static_fragment.specs.Recognised.{IsRecognised, IsFragmentRefusal, IsRecognisedUpTo, IsRefusedUpTo};

use crate::faults::FragmentFault;
use crate::showing::{at_variable, at_whole};
use crate::stages::{judge_values, judged_reaches, judged_sharing, judged_units, judged_ways};
use crate::trees::forest;
use ar_base::EventId;
use gts_core::Gts;
use mode_search::least_again;
use mode_trees::Forest;
use std::alloc::Global;

/// The trees of the modes of a system that keeps the rules of the static fragment, where these
/// events are dropped.
///
/// The trees are those of its mode variables, by number. The edges of each stand in order: each
/// before those below the mode that it enters, and those that leave one mode by the numbers of their
/// events. A number that is no event's drops nothing.
///
/// Each guard is looked at once at each mode of its mode variable that is reached, and the possible
/// values of each expression once.
///
/// # Errors
/// `Outside` with the least rule that the system breaks and the first thing that this is shown with;
/// `Memory` where memory was refused.
pub fn recognise(alloc: Global, gts: &Gts, dropped: &[EventId]) -> Result<Forest, FragmentFault>
    ensures ok { (system : System ℕ) → Views gts.now system
        → IfOk result (λ f. IsRecognised system (plain_event_numbers dropped.now)
        (trees_of (number_in gts.now) f)) }
    ensures ways { IfOk result (λ f. OwnTheirWays gts.now f.trees.items) }
    ensures outside { (system : System ℕ) → Views gts.now system
        → IfErr result (IsFragmentRefusal system (plain_event_numbers dropped.now)) }
{
    recognise_up_to(alloc, gts, dropped, None)
}

/// The same where only cuts of at most `order` events are asked for, if a number is given: the eighth rule,
/// which says how many events may have a live edge, is not asked then. The first seven are.
///
/// # Errors
/// `Outside` with the least rule that the system breaks, which is one of those that are asked, and the
/// first thing that this is shown with; `Memory` where memory was refused.
pub fn recognise_up_to(
    alloc: Global,
    gts: &Gts,
    dropped: &[EventId],
    order: Option<u32>,
) -> Result<Forest, FragmentFault>
    ensures ok { (system : System ℕ) → Views gts.now system
        → IfOk result (λ f. IsRecognisedUpTo order system (plain_event_numbers dropped.now)
        (trees_of (number_in gts.now) f)) }
    ensures ways { IfOk result (λ f. OwnTheirWays gts.now f.trees.items) }
    ensures outside { (system : System ℕ) → Views gts.now system
        → IfErr result (IsRefusedUpTo order system (plain_event_numbers dropped.now)) }
{
    let parts = gts.parts();
    let units = judged_units(alloc, parts, dropped)?;
    let kept = judged_ways(alloc, parts, &units)?;
    let reaches = judged_reaches(alloc, parts, &kept)?;
    let sharing = judged_sharing(alloc, parts, &reaches)?;
    at_variable(6, least_again(&reaches))?;
    judge_values(alloc, parts)?;
    at_whole(order, sharing.events.len())?;
    let trees = forest(alloc, parts, &units.moving, &reaches)?;
    Ok(trees)
}
