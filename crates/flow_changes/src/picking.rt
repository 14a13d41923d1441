//! Items that are picked out of lists by their numbers, and written back.

ghost use Rattle.std.specs.Prelude.{◌≡◌, ◌<◌, ℕ, List, length, IfOk};
ghost use Rattle.flow_changes.specs.Picking.{KeepsOthers, ArePicked, AreSet, AreWithin};

use ar_base::Memory;
use std::alloc::Global;

// The items at these numbers.
pub(crate) fn picked<T: Copy + Drop>(
    alloc: Global,
    numbers: &[u32],
    all: &[T],
) -> Result<Vec<T>, Memory>
    requires { AreWithin numbers.now all.now }
    ensures { IfOk result (λ v. ArePicked numbers.now all.now v.items) }
{
    let mut items = Vec::with_capacity(alloc, numbers.len())?;
    for n in numbers {
        items.push(all[*n as usize])?;
    }
    Ok(items)
}

// Writes items that were picked back. A list that has them, and is the same elsewhere, is what comes out.
pub(crate) fn put_back<T: Copy>(numbers: &[u32], items: &[T], all: &mut Vec<T>)
    requires long { length items.now ≡ length numbers.now }
    requires within { AreWithin numbers.now all.old.items }
    ensures { (was : List T) → ArePicked numbers.now was items.now
        → KeepsOthers numbers.now was all.old.items → all.new.items ≡ was }
{
    for (place, n) in numbers.iter().enumerate() {
        all[*n as usize] = items[place];
    }
}

// Writes an item at each of these numbers.
pub(crate) fn set_all(numbers: &[u32], mark: bool, marks: &mut Vec<bool>)
    requires { AreWithin numbers.now marks.old.items }
    ensures { AreSet mark numbers.now marks.old.items marks.new.items }
{
    for n in numbers {
        marks[*n as usize] = mark;
    }
}
