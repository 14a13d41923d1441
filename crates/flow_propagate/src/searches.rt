//! The searches for faults.

ghost use Rattle.std.specs.Prelude.{false, ◌≡◌, ◌<◌, List, length, Contains};
ghost use Rattle.ar_base.specs.Least.{least_with};
ghost use Rattle.domains.specs.Domains.{IsDomain, Holds as DomainHolds};
ghost use Rattle.domains.specs.declared.Value.{Value};
ghost use Rattle.ar_meaning.specs.Flows.{HasTwo};
ghost use Rattle.ar_meaning.specs.Found.{IsAnswer};
ghost use Rattle.ar_meaning.specs.FoundInside.{IsFirstOrNone};
ghost use Rattle.gts_core.specs.Sound.{IsSound};
ghost use Rattle.gts_core.specs.View.{net_of};
ghost use Rattle.flow_propagate.specs.Table.{AreFacts};

use crate::fact_rows::is_two;
use crate::table::Table;
use domains::{Domain, Value};
use gts_core::GtsParts;

// The least flow with two values.
pub(crate) fn first_two(parts: &GtsParts, table: &Table) -> Option<u32>
    requires sound { IsSound parts.now }
    requires long { length table.now.rows.items ≡ length parts.now.variables.items }
    ensures { (t : List Value) → AreFacts (net_of parts.now) t table.now.rows.items
        → IsFirstOrNone (net_of parts.now).variables (HasTwo (net_of parts.now) t) result }
{
    for (place, variable) in parts.variables.iter().enumerate() {
        if is_two(variable.is_state, &table.rows[place]) {
            return Some(place as u32);
        }
    }
    None
}

/// Whether one of the values is outside the domain. Takes no memory.
pub fn some_outside(domain: &Domain, values: &[Value]) -> bool
    requires { IsDomain domain.now }
    ensures { IsAnswer result ((v : Value) × Contains values.now v
        × (DomainHolds domain.now v → ⊥)) }
{
    for v in values {
        if !domain.holds(*v) {
            return true;
        }
    }
    false
}

// The lesser of what was found and the target, where it counts.
pub(crate) fn with_target(least: Option<u32>, counts: bool, target: u32) -> Option<u32>
    ensures { result ≡ least_with least counts target }
{
    if !counts {
        return least;
    }
    match least {
        Some(n) => Some(if target < n { target } else { n }),
        None => Some(target),
    }
}
