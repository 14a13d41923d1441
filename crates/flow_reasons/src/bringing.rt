//! The assignments that bring a new fact.

ghost use Rattle.std.specs.Prelude.{◌≡◌, ◌<◌, ◌^◌, ◌↔◌, ℕ, length, IfOk};
ghost use Rattle.ar_base.specs.Lists.{IsOneOf};
ghost use Rattle.ar_base.specs.Sets.{Ascends};
ghost use Rattle.gts_core.specs.Sound.{IsSound};
ghost use Rattle.flow_reasons.specs.Bringing.{AreBringing};

use crate::fact_marks::Mark;
use crate::known::brings;
use ar_base::Memory;
use domains::Value;
use gts_core::GtsParts;
use std::alloc::Global;

// Of these assignments those that bring something.
pub(crate) fn bringing(
    alloc: Global,
    parts: &GtsParts,
    values: &[Value],
    marks: &[Mark],
    among: &[u32],
) -> Result<Vec<u32>, Memory>
    requires sound { IsSound parts.now }
    requires values { length values.now ≡ length parts.now.variables.items }
    requires marks { length marks.now ≡ length parts.now.variables.items }
    requires ascends { Ascends among.now }
    requires inside { (n : ℕ) → IsOneOf among.now n → n < length parts.now.assigns.items }
    ensures { IfOk result (λ found. AreBringing parts.now values.now marks.now among.now
        found.items) }
{
    let mut found = Vec::new(alloc);
    for n in among {
        let brings = brings(alloc, &parts.assigns[*n as usize], values, marks)?;
        if brings {
            found.push(*n)?;
        }
    }
    Ok(found)
}

// The numbers below a count, ascending.
pub(crate) fn numbers_below(alloc: Global, count: usize) -> Result<Vec<u32>, Memory>
    requires { count < 2 ^ 32 }
    ensures ascends { IfOk result (λ numbers. Ascends numbers.items) }
    ensures each { IfOk result (λ numbers. (n : ℕ) → (IsOneOf numbers.items n ↔ (n < count))) }
{
    let mut numbers = Vec::new(alloc);
    for number in 0..count as u32 {
        numbers.push(number)?;
    }
    Ok(numbers)
}
