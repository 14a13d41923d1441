//! A depth-first search along the uses.

use crate::lists::empty_lists;
use ar_base::Memory;
use std::alloc::Global;

/// A depth-first search: the places of the uses that it has not tried from each number, which
/// numbers it has entered, and the path that it is on. It notes the places of the uses by which it
/// entered numbers, and the numbers that it left, both in order.
#[derive(Drop)]
pub(crate) struct Search {
    untried: Vec<Vec<u32>>,
    entered: Vec<bool>,
    path: Vec<u32>,
    pub(crate) taken: Vec<u32>,
    pub(crate) left: Vec<u32>,
}

/// For each number the places of its uses.
pub(crate) fn places_from(
    alloc: Global,
    count: u32,
    uses: &[(u32, u32)],
) -> Result<Vec<Vec<u32>>, Memory> {
    let mut lists = empty_lists(alloc, count as usize)?;
    for (place, (from, _)) in (0..u32::MAX).zip(uses) {
        if let Some(list) = lists.get_mut(*from as usize) {
            list.push(place)?;
        }
    }
    Ok(lists)
}

impl Search {
    /// A search that has not begun.
    pub(crate) fn new(alloc: Global, count: u32, uses: &[(u32, u32)]) -> Result<Search, Memory> {
        Ok(Search {
            untried: places_from(alloc, count, uses)?,
            entered: vec![in alloc; false; count as usize]?,
            path: Vec::new(alloc),
            taken: Vec::new(alloc),
            left: Vec::new(alloc),
        })
    }

    /// Goes from a number over all that it reaches and that were not entered before.
    pub(crate) fn go_from(&mut self, uses: &[(u32, u32)], root: u32) -> Result<(), Memory> {
        let _ = self.enter(root)?;
        // each turn tries one use or leaves one number
        for _ in 0..uses.len().saturating_add(self.entered.len()) {
            let Some(number) = self.path.last().copied() else {
                break;
            };
            let Some(places) = self.untried.get_mut(number as usize) else {
                break;
            };
            let Some(place) = places.pop() else {
                let _ = self.path.pop();
                self.left.push(number)?;
                continue;
            };
            let Some((_, to)) = uses.get(place as usize) else {
                continue;
            };
            if self.enter(*to)? {
                self.taken.push(place)?;
            }
        }
        Ok(())
    }

    /// Enters a number, and says whether it is the first time.
    fn enter(&mut self, number: u32) -> Result<bool, Memory> {
        let Some(entered) = self.entered.get_mut(number as usize) else {
            return Ok(false);
        };
        if *entered {
            return Ok(false);
        }
        *entered = true;
        self.path.push(number)?;
        Ok(true)
    }
}
