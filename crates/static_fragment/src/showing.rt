//! Refusals with a rule and what it is shown with.

ghost use Rattle.ar_firing.specs.Rules.{AtVariable};
ghost use Rattle.static_fragment.specs.Shown.{IsShownWith, IsCountedUpTo};

use crate::faults::{FragmentFault, Spot};
use ar_base::VarId;

// Refuses with this rule where a variable was found.
pub(crate) fn at_variable(rule: u8, found: Option<u32>) -> Result<(), FragmentFault>
    ensures { IsShownWith rule AtVariable found result }
{
    match found {
        Some(n) => Err(FragmentFault::Outside(rule, Spot::Variable(VarId::new(n)))),
        None => Ok(()),
    }
}

// The most events with a live edge.
const MOST_EVENTS: usize = 2_048;

// Refuses with the eighth rule where more events have a live edge, and the cuts of all orders are asked for.
pub(crate) fn at_whole(order: Option<u32>, count: usize) -> Result<(), FragmentFault>
    ensures { IsCountedUpTo order count result }
{
    match order {
        None if count > MOST_EVENTS => Err(FragmentFault::Outside(8, Spot::Whole)),
        _ => Ok(()),
    }
}
