//! Marks of which facts of a valuation are known, and the marks of a round.

ghost use Rattle.std.specs.Prelude.{◌≡◌, ◌<◌, ℕ, length, slice_get, IfOk};
ghost use Rattle.ar_base.specs.Lists.{IsOneOf};
ghost use Rattle.ar_base.specs.Sets.{Ascends};
ghost use Rattle.gts_core.specs.Sound.{IsSound};
ghost use Rattle.flow_reasons.specs.FactMarks.{is_fact_found, MarksAll};

use ar_base::{AssignId, Memory};
use gts_core::GtsParts;
use std::alloc::Global;

/// What is known of the fact of a variable.
#[derive(Clone, Copy)]
pub enum Mark {
    /// It has none so far.
    Unknown,
    /// The state gives it.
    Given,
    /// It came in this round by this assignment.
    Added(u32, AssignId),
}

/// Whether the variable of this number has its fact. Takes no memory.
pub fn is_known(marks: &[Mark], n: u32) -> bool
    ensures { result ≡ is_fact_found (slice_get marks.now n) }
{
    match marks.get(n as usize) {
        Some(Mark::Given) => true,
        Some(Mark::Added(_, _)) => true,
        _ => false,
    }
}

/// Marks the targets of these assignments that have no fact yet, each by the first that is one to it, and answers which
/// variables were marked. The error is want of memory.
pub fn mark_all(
    alloc: Global,
    parts: &GtsParts,
    bringing: &[u32],
    round: u32,
    marks: &mut [Mark],
) -> Result<Vec<u32>, Memory>
    requires sound { IsSound parts.now }
    requires marks { length marks.old ≡ length parts.now.variables.items }
    requires ascends { Ascends bringing.now }
    requires inside { (n : ℕ) → IsOneOf bringing.now n → n < length parts.now.assigns.items }
    ensures { IfOk result (λ fresh. MarksAll parts.now bringing.now round marks.old marks.new
        fresh.items) }
{
    let mut fresh = Vec::new(alloc);
    for n in bringing {
        let target = parts.assigns[*n as usize].target.n;
        if !is_known(marks, target) {
            marks[target as usize] = Mark::Added(round, AssignId::new(*n));
            fresh.push(target)?;
        }
    }
    Ok(fresh)
}
