//! One list for each number.

ghost use Rattle.std.specs.Prelude.{◌≡◌, ℕ, IfOk, length};
ghost use Rattle.ar_base.specs.Lists.{IsOneOf};
ghost use Rattle.flow_blocks.specs.Bits.{row_of};

use ar_base::Memory;
use std::alloc::Global;

/// As many empty lists.
pub(crate) fn empty_lists(alloc: Global, count: usize) -> Result<Vec<Vec<u32>>, Memory>
    ensures long { IfOk result (λ lists. length lists.items ≡ count) }
    ensures none { IfOk result (λ lists. (a n : ℕ) → IsOneOf (row_of lists.items a) n → ⊥) }
{
    let mut lists: Vec<Vec<u32>> = Vec::with_capacity(alloc, count)?;
    while lists.len() < count {
        lists.push(Vec::new(alloc))?;
    }
    Ok(lists)
}
