//! The rounds in which the facts of a standing valuation come.

ghost use Rattle.std.specs.Prelude.{◌≡◌, ℕ, length, IfOk};
ghost use Rattle.gts_core.specs.Sound.{IsSound};
ghost use Rattle.flow_propagate.specs.Plan.{AreReaders};
ghost use Rattle.flow_reasons.specs.Marks.{first_marks_of, IsStanding, AreLastMarks};
ghost use Rattle.flow_reasons.specs.Bringing.{BringsAt, BringAll, NameOne};

use crate::bringing::{bringing, numbers_below};
use crate::fact_marks::{Mark, mark_all};
use ar_base::{Memory, paired};
use domains::Value;
use gts_core::GtsParts;
use std::alloc::Global;

// The marks after all rounds.
//
// An assignment is looked at in the first round, and then in those that follow one in which a variable that it names got its
// fact. What a round adds is gathered from what was known before it, and marked when all was looked at.
pub(crate) fn last_marks(
    alloc: Global,
    parts: &GtsParts,
    pairs: &[(u32, u32)],
    values: &[Value],
) -> Result<Vec<Mark>, Memory>
    requires sound { IsSound parts.now }
    requires pairs { AreReaders parts.now pairs.now }
    requires standing { IsStanding parts.now values.now }
    ensures { IfOk result (λ marks. AreLastMarks parts.now values.now marks.items) }
{
    let mut marks = first_marks(alloc, parts)?;
    let mut found = first_bringing(alloc, parts, values, &marks)?;
    let mut round = 0;
    'all_rounds: while !found.is_empty() {
        round += 1;
        let fresh = mark_all(alloc, parts, &found, round, &mut marks)?;
        found = next_bringing(alloc, parts, pairs, &fresh, values, &marks)?;
    }
    Ok(marks)
}

// The marks before the first round: the state gives the facts of the state variables.
fn first_marks(alloc: Global, parts: &GtsParts) -> Result<Vec<Mark>, Memory>
    ensures { IfOk result (λ marks. marks.items ≡ first_marks_of parts.now.variables.items) }
{
    let mut marks = Vec::new(alloc);
    for variable in &parts.variables {
        let mark = if variable.is_state {
            Mark::Given
        } else {
            Mark::Unknown
        };
        marks.push(mark)?;
    }
    Ok(marks)
}

// The assignments that bring something in the first round: all are looked at.
fn first_bringing(
    alloc: Global,
    parts: &GtsParts,
    values: &[Value],
    marks: &[Mark],
) -> Result<Vec<u32>, Memory>
    requires sound { IsSound parts.now }
    requires values { length values.now ≡ length parts.now.variables.items }
    requires marks { length marks.now ≡ length parts.now.variables.items }
    ensures { IfOk result (λ found. BringAll parts.now values.now marks.now found.items) }
{
    let all = numbers_below(alloc, parts.assigns.len())?;
    bringing(alloc, parts, values, marks, &all)
}

// The assignments that bring something in a later round: those are looked at that name a variable whose fact is fresh.
fn next_bringing(
    alloc: Global,
    parts: &GtsParts,
    pairs: &[(u32, u32)],
    fresh: &[u32],
    values: &[Value],
    marks: &[Mark],
) -> Result<Vec<u32>, Memory>
    requires sound { IsSound parts.now }
    requires pairs { AreReaders parts.now pairs.now }
    requires values { length values.now ≡ length parts.now.variables.items }
    requires marks { length marks.now ≡ length parts.now.variables.items }
    requires named { (n : ℕ) → BringsAt parts.now values.now marks.now n
        → NameOne parts.now fresh.now n }
    ensures { IfOk result (λ found. BringAll parts.now values.now marks.now found.items) }
{
    let readers = paired(alloc, pairs, fresh)?;
    bringing(alloc, parts, values, marks, &readers)
}
