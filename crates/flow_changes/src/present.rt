//! What a state determines, kept from change to change.

ghost use Rattle.std.specs.Prelude.{◌≡◌, ◌<◌, ℕ, Bool, true, false, List, length, replicate, IfOk, IfErr, OnErr, None};
ghost use Rattle.ar_base.specs.Lists.{Stands};
ghost use Rattle.domains.specs.declared.Value.{Value as Values};
ghost use Rattle.gts_core.specs.Sound.{IsSound};
ghost use Rattle.flow_propagate.specs.Answers.{IsState};
ghost use Rattle.flow_propagate.specs.NewValues.{AreNewValues, written};
ghost use Rattle.flow_propagate.specs.Plan.{IsPlan};
ghost use Rattle.flow_changes.specs.Restoring.{restored, marks_turned};
ghost use Rattle.flow_changes.specs.Present.{present_values, known_of, IsPresent, Presents, IsFaultOf, Propagates};

use crate::Changes;
use crate::cone::cone;
use crate::restoring::restore as write_back;
use crate::trying::attempt;
use crate::whole::whole;
use ar_base::{Memory, VarId};
use domains::Value;
use flow_propagate::{Determined, Plan, PropagateFault, determine};
use gts_core::{Gts, GtsParts, Valuation};
use std::alloc::Global;

/// What a state determines, kept so that what a changed state determines costs what the change reaches.
#[derive(Drop)]
pub struct Present {
    /// The total valuation, and which of its values are facts.
    pub determined: Determined,
    /// For each variable a mark, which is unset between calls.
    pub marks: Vec<bool>,
}

/// What a state determines, or the first fault that applies, or want of memory.
///
/// The state has one value for each variable, those of state variables in their domains; its flow values are not read.
pub fn make_present(
    alloc: Global,
    gts: &Gts,
    plan: &Plan,
    state: &Valuation,
) -> Result<Present, PropagateFault>
    requires state { IsState gts.now state.now.values.items }
    requires plan { IsPlan gts.now plan.now }
    ensures { Presents gts.now state.now.values.items result }
{
    let determined = determine(alloc, gts, plan, state)?;
    let marks = unset(alloc, gts.parts().variables.len())?;
    Ok(Present { determined, marks })
}

// So many marks that are unset.
fn unset(alloc: Global, count: usize) -> Result<Vec<bool>, Memory>
    ensures { IfOk result (λ marks. marks.items ≡ replicate count false) }
{
    let marks = vec![in alloc; false; count]?;
    Ok(marks)
}

/// Goes from what is determined, and new values of state variables, to what is determined then, and tells what changed.
///
/// The time is that of what the change reaches: the variables of `new`, and with each variable the flows that assignments
/// give values which name it. The new values are in the variables' domains, and stand ascending by variable, each variable
/// once. Errors are the first fault of the new state, and want of memory; then `present` is as it was.
pub fn propagate_from(
    alloc: Global,
    gts: &Gts,
    plan: &Plan,
    present: &mut Present,
    new: &[(VarId, Value)],
) -> Result<Changes, PropagateFault>
    requires plan { IsPlan gts.now plan.now }
    requires present { IsPresent gts.now present.old }
    requires new { AreNewValues gts.now new.now }
    ensures present { IsPresent gts.now present.new }
    ensures ok { IfOk result (Propagates gts.now (present_values present.old) (known_of present.old)
        new.now (present_values present.new) (known_of present.new)) }
    ensures fault { IfErr result (IsFaultOf gts.now (written (present_values present.old) new.now)) }
    ensures err { OnErr result ((present_values present.new ≡ present_values present.old)
        × (known_of present.new ≡ known_of present.old)) }
{
    let parts = gts.parts();
    let members = cone(alloc, parts, &plan.readers, new, &mut present.marks)?;
    match attempt(alloc, parts, plan, &members, new, &mut present.determined)? {
        Some(changes) => Ok(changes),
        // the new state has a fault, or may have one
        None => whole(alloc, gts, plan, &mut present.determined, new),
    }
}

/// Takes changes back: writes the old values and marks. Takes no memory.
pub fn restore(parts: &GtsParts, present: &mut Present, changes: &Changes)
    requires sound { IsSound parts.now }
    requires long { length changes.now.variables.items ≡ length changes.now.old.items }
    ensures values { present_values present.new
        ≡ restored parts.now (present_values present.old) changes.now.variables.items
        changes.now.old.items }
    ensures known { known_of present.new ≡ marks_turned (known_of present.old) changes.now.turned.items }
    ensures marks { present.new.marks.items ≡ present.old.marks.items }
{
    write_back(
        parts,
        &mut present.determined.values.values,
        &mut present.determined.known,
        changes,
    );
}
