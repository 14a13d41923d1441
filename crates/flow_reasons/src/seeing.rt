//! Variables that were seen.

ghost use Rattle.std.specs.Prelude.{◌<◌, ◌^◌, ℕ, length, IfOk};
ghost use Rattle.ar_base.specs.Lists.{IsOneOf};
ghost use Rattle.flow_reasons.specs.Answers.{numbers_of};
ghost use Rattle.flow_propagate.specs.Marks.{AreMarked};
ghost use Rattle.flow_reasons.specs.Cones.{SeesAll, AreMembers};

use ar_base::{Memory, VarId};
use std::alloc::Global;

// Sees these variables; those that were not seen before go last in the list.
pub(crate) fn see_all(
    variables: &[VarId],
    seen: &mut [bool],
    found: &mut Vec<u32>,
) -> Result<(), Memory>
    requires are { AreMarked seen.old found.old.items }
    requires below { (n : ℕ) → IsOneOf (numbers_of variables.now) n → n < length seen.old }
    ensures { IfOk result (λ _. SeesAll (numbers_of variables.now) seen.old seen.new found.old.items
        found.new.items) }
{
    for variable in variables {
        let n = variable.n as usize;
        if !seen[n] {
            seen[n] = true;
            found.push(variable.n)?;
        }
    }
    Ok(())
}

// The variables that were seen, by number.
pub(crate) fn members(alloc: Global, seen: &[bool]) -> Result<Vec<VarId>, Memory>
    requires { length seen.now < 2 ^ 32 }
    ensures { IfOk result (λ found. AreMembers seen.now (length seen.now)
        (numbers_of found.items)) }
{
    let mut found = Vec::new(alloc);
    for (place, is_seen) in seen.iter().enumerate() {
        if *is_seen {
            found.push(VarId::new(place as u32))?;
        }
    }
    Ok(found)
}
