//! Which flows are told.

ghost use Rattle.std.specs.Prelude.{IfOk};
ghost use Rattle.flow_reasons.specs.Answers.{numbers_of, reasons_of, AreOfState};
ghost use Rattle.reason_text.specs.Answers.{IsObserverIn, observed, AreToldVariables, HasMarksAt};

use ar_base::{Memory, VarId, mark};
use flow_reasons::{Reason, cone};
use gts_core::Gts;
use std::alloc::Global;

// For each variable whether it is told.
pub(crate) fn told(
    alloc: Global,
    gts: &Gts,
    reasons: &[Reason],
    observer: Option<u32>,
) -> Result<Vec<bool>, Memory>
    requires reasons { AreOfState gts.now reasons.now }
    requires range { IsObserverIn gts.now observer }
    ensures { IfOk result (λ told. AreToldVariables gts.now (reasons_of reasons.now)
        (observed gts.now observer) told.items) }
{
    let count = gts.parts().variables.len();
    match observer {
        None => {
            let marks = vec![in alloc; true; count]?;
            Ok(marks)
        }
        Some(n) => {
            let found = cone(alloc, gts, n, reasons)?;
            marks_of(alloc, &found, count)
        }
    }
}

// So many marks, of which those of these variables are set.
fn marks_of(alloc: Global, variables: &[VarId], count: usize) -> Result<Vec<bool>, Memory>
    ensures { IfOk result (λ marks. HasMarksAt count (numbers_of variables.now) marks.items) }
{
    let mut marks = vec![in alloc; false; count]?;
    for variable in variables {
        mark(&mut marks, variable.n);
    }
    Ok(marks)
}
