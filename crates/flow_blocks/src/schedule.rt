//! The order in which the rows of the uses are joined.

use crate::lists::empty_lists;
use crate::search::{Search, places_from};
use ar_base::Memory;
use std::alloc::Global;
use std::mem;

/// The places of uses in an order by which the rows close in one pass. Each number's uses stand
/// there when a depth-first search leaves the number, so the row of the number that is left last of
/// its class is then complete. Behind its uses stand those that bring its row to the other numbers of
/// the class: each leads to it or to a number that has its row by then. No clause says so: whatever
/// these places are, the rows close.
pub(crate) fn schedule(alloc: Global, count: u32, uses: &[(u32, u32)]) -> Result<Vec<u32>, Memory> {
    let order = leaving_order(alloc, count, uses)?;
    let own = places_from(alloc, count, uses)?;
    let back = ways_back(alloc, count, uses, &order)?;
    let mut places = Vec::new(alloc);
    for number in &order {
        append(&mut places, &own, *number)?;
        append(&mut places, &back, *number)?;
    }
    Ok(places)
}

/// The numbers in the order in which a depth-first search along the uses leaves them.
fn leaving_order(alloc: Global, count: u32, uses: &[(u32, u32)]) -> Result<Vec<u32>, Memory> {
    let mut search = Search::new(alloc, count, uses)?;
    for root in 0..count {
        search.go_from(uses, root)?;
    }
    Ok(search.left)
}

/// For the number of each class that is left last, the places of the uses that bring its row to the
/// other numbers of the class. A search against the uses finds them: from the number that is left
/// last of those not found yet, it reaches the rest of that number's class and nothing else that is
/// new.
fn ways_back(
    alloc: Global,
    count: u32,
    uses: &[(u32, u32)],
    order: &[u32],
) -> Result<Vec<Vec<u32>>, Memory> {
    let turned = turned(alloc, uses)?;
    let mut search = Search::new(alloc, count, &turned)?;
    let mut lists = empty_lists(alloc, count as usize)?;
    for root in order.iter().rev() {
        search.go_from(&turned, *root)?;
        if let Some(list) = lists.get_mut(*root as usize) {
            *list = mem::replace(&mut search.taken, Vec::new(alloc));
        }
    }
    Ok(lists)
}

/// The pairs the other way round.
fn turned(alloc: Global, uses: &[(u32, u32)]) -> Result<Vec<(u32, u32)>, Memory> {
    let mut pairs = Vec::with_capacity(alloc, uses.len())?;
    for (from, to) in uses {
        pairs.push((*to, *from))?;
    }
    Ok(pairs)
}

/// Adds the list of a number at the end.
fn append(places: &mut Vec<u32>, lists: &[Vec<u32>], number: u32) -> Result<(), Memory> {
    if let Some(list) = lists.get(number as usize) {
        places.extend_from_slice(list)?;
    }
    Ok(())
}
