//! The values of the new state, and the values of flows that have no fact.

ghost use Rattle.std.specs.Prelude.{◌≡◌, ◌<◌, true, false, length, if◌then◌else◌};
ghost use Rattle.ar_base.specs.Lists.{IsOneOf};
ghost use Rattle.ar_base.specs.Numbers.{VarId as VarIds};
ghost use Rattle.domains.specs.declared.Value.{Value as Values};
ghost use Rattle.flow_propagate.specs.NewValues.{written};
ghost use Rattle.flow_changes.specs.Picking.{AreSet, AreWithin};
ghost use Rattle.flow_changes.specs.Known.{changing_numbers, Resets};

use ar_base::VarId;
use domains::Value;
use gts_core::GtsParts;

// Writes new values.
pub(crate) fn write_new(new: &[(VarId, Value)], values: &mut Vec<Value>)
    requires { AreWithin (changing_numbers new.now) values.old.items }
    ensures { values.new.items ≡ written values.old.items new.now }
{
    for (variable, v) in new {
        values[variable.n as usize] = *v;
    }
}

// Marks the variables that get new values.
pub(crate) fn mark_new(new: &[(VarId, Value)], known: &mut Vec<bool>)
    requires { AreWithin (changing_numbers new.now) known.old.items }
    ensures { AreSet true (changing_numbers new.now) known.old.items known.new.items }
{
    for (variable, _) in new {
        known[variable.n as usize] = true;
    }
}

// Gives each member whose value is not known its declared value.
pub(crate) fn reset(parts: &GtsParts, members: &[u32], known: &[bool], values: &mut Vec<Value>)
    requires declared { AreWithin members.now parts.now.variables.items }
    requires marked { AreWithin members.now known.now }
    requires within { AreWithin members.now values.old.items }
    ensures { Resets parts.now members.now known.now values.old.items values.new.items }
{
    for n in members {
        let place = *n as usize;
        values[place] = own_or(known[place], values[place], parts.variables[place].value);
    }
}

// The first value where it is known, else the second.
fn own_or(known: bool, own: Value, reset: Value) -> Value
    ensures { result ≡ (if known then own else reset) }
{
    if known { own } else { reset }
}
