//! The variables that the reasons of flows rest on.

ghost use Rattle.std.specs.Prelude.{◌≡◌, ◌<◌, ℕ, length, IfOk, IfOk};
ghost use Rattle.ar_base.specs.Lists.{IsOneOf, Stands};
ghost use Rattle.ar_meaning.specs.Found.{IsAnswer};
ghost use Rattle.gts_core.specs.Sound.{IsSound};
ghost use Rattle.flow_propagate.specs.Plan.{AreReaders};
ghost use Rattle.flow_reasons.specs.Resting.{IsMarkedRest, AreRests, AreEmpty, AddsRest};

use crate::fact_marks::Mark;
use ar_base::{Memory, VarId};
use gts_core::GtsParts;
use std::alloc::Global;

// For each variable those that its reason rests on, by number, each once.
pub(crate) fn rests(
    alloc: Global,
    parts: &GtsParts,
    pairs: &[(u32, u32)],
    marks: &[Mark],
) -> Result<Vec<Vec<VarId>>, Memory>
    requires sound { IsSound parts.now }
    requires pairs { AreReaders parts.now pairs.now }
    requires marks { length marks.now ≡ length parts.now.variables.items }
    ensures { IfOk result (λ rests. AreRests parts.now marks.now pairs.now rests.items) }
{
    let mut rests = empty_rows(alloc, marks.len())?;
    for (variable, assign) in pairs {
        let target = parts.assigns[*assign as usize].target.n;
        add_rest(marks, target, *variable, *assign, &mut rests)?;
    }
    Ok(rests)
}

// So many empty lists.
fn empty_rows(alloc: Global, count: usize) -> Result<Vec<Vec<VarId>>, Memory>
    ensures { IfOk result (λ rests. AreEmpty count rests.items) }
{
    let mut rests = Vec::new(alloc);
    'rows: for _row in 0..count {
        rests.push(Vec::new(alloc))?;
    }
    Ok(rests)
}

// Adds a variable to those that the target's reason rests on, where the assignment added the target's fact and the
// variable's fact came before.
fn add_rest(
    marks: &[Mark],
    target: u32,
    variable: u32,
    assign: u32,
    rests: &mut Vec<Vec<VarId>>,
) -> Result<(), Memory>
    requires target { target < length marks.now }
    requires variable { variable < length marks.now }
    requires long { length rests.old.items ≡ length marks.now }
    ensures { IfOk result (λ _. AddsRest marks.now target variable assign rests.old.items
        rests.new.items) }
{
    if is_rest(marks[target as usize], assign, marks[variable as usize]) {
        rests[target as usize].push(VarId::new(variable))?;
    }
    Ok(())
}

// Whether the assignment added the first fact, and the other one came before.
fn is_rest(mark: Mark, assign: u32, other: Mark) -> bool
    ensures { IsAnswer result (IsMarkedRest mark assign other) }
{
    let Mark::Added(round, by) = mark else {
        return false;
    };
    if by.n != assign {
        return false;
    }
    match other {
        Mark::Unknown => false,
        Mark::Given => true,
        Mark::Added(r, _) => r < round,
    }
}
