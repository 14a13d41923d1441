//! Assignments that hold under a total valuation.

ghost use Rattle.std.specs.Prelude.{◌<◌, ℕ, true, false, length};
ghost use Rattle.ar_base.specs.Lists.{IsOneOf, Stands};
ghost use Rattle.ar_meaning.specs.Flows.{IsBrokenAssign};
ghost use Rattle.ar_meaning.specs.Found.{IsAnswer};
ghost use Rattle.gts_core.specs.Readings.{IsTotal};
ghost use Rattle.gts_core.specs.Sound.{IsSound};
ghost use Rattle.gts_core.specs.View.{net_of, assign_of};
ghost use Rattle.gts_core.specs.declared.system.Assign.{Assign as Assigns};
ghost use Rattle.flow_changes.specs.Picking.{AreWithin};

use domains::Value;
use gts_core::{Assign, GtsParts, are_met, value_in};

// Whether no assignment at these places of the order is broken.
pub(crate) fn all_hold(parts: &GtsParts, order: &[u32], list: &[usize], values: &[Value]) -> bool
    requires sound { IsSound parts.now }
    requires total { IsTotal parts.now values.now }
    requires within { AreWithin list.now order.now }
    requires below { AreWithin order.now parts.now.assigns.items }
    ensures { IsAnswer result ((q n : ℕ) (a : Assigns) → IsOneOf list.now q → Stands order.now q n
        → Stands parts.now.assigns.items n a → IsBrokenAssign (net_of parts.now) values.now (assign_of a)
        → ⊥) }
{
    for place in list {
        if is_broken(parts, &parts.assigns[order[*place] as usize], values) {
            return false;
        }
    }
    true
}

// Whether an assignment is reached and has another value than its target.
fn is_broken(parts: &GtsParts, assign: &Assign, values: &[Value]) -> bool
    requires sound { IsSound parts.now }
    requires one { IsOneOf parts.now.assigns.items assign.now }
    requires total { IsTotal parts.now values.now }
    ensures { IsAnswer result (IsBrokenAssign (net_of parts.now) values.now (assign_of assign.now)) }
{
    if !are_met(values, &assign.when) {
        return false;
    }
    value_in(values, &assign.value) != values[assign.target.n as usize]
}
