//! An order of bodies in which each comes after those inside it.

ghost use Rattle.std.specs.Prelude.{◌≡◌, ◌<◌, ◌⊎◌, ◌^◌, ℕ, true, Vec, List, [], ◌∷◌, length, IfOk, OnOk, IfSome, IfNone};
ghost use Rattle.std.specs.Global.{Global};
ghost use Rattle.ar_base.specs.Lists.{Stands, IsOneOf};
ghost use Rattle.class_table.specs.Searching.{IsSeen, OpensOne};
ghost use Rattle.class_table.specs.Ordering.{IsBodyOrder, IsSorting, Sorts};
ghost use Rattle.class_table.specs.Rows.{IsInRow};

use ar_base::{Memory, numbers_below};
use std::alloc::Global;
use std::mem;

/// Bodies that are put in order: for each body those inside it that were not found in the order, and those that wait
/// for it; whether each is in the order; and the order.
#[derive(Drop)]
struct Sorting {
    rows: Vec<Vec<u32>>,
    waiting: Vec<Vec<u32>>,
    placed: Vec<bool>,
    order: Vec<u32>,
}

/// Puts numbers in an order in which each comes after those in its row, until each that is left has one in its row
/// that is left too.
pub(crate) fn put_in_order(alloc: Global, rows: Vec<Vec<u32>>) -> Result<Vec<u32>, Memory>
    requires within { (a b : ℕ) → IsInRow rows.items a b → b < length rows.items }
    requires few { length rows.items < 2 ^ 32 }
    ensures { IfOk result (λ order. IsBodyOrder rows.items order.items) }
{
    let all = numbers_below(alloc, rows.len())?;
    let mut sorting = Sorting::new(alloc, rows)?;
    sorting.settle_all(&all)?;
    sorting.release_all(alloc)?;
    Ok(sorting.order)
}

// The last of these bodies that is not placed. Those behind it are dropped.
fn next_awaited(row: &mut Vec<u32>, placed: &[bool]) -> Option<u32>
    requires { (b : ℕ) → IsOneOf row.old.items b → b < length placed.now }
    ensures some { IfSome result (λ b. IsOneOf row.old.items b × (Stands placed.now b true → ⊥)) }
    ensures none { IfNone result ((b : ℕ) → IsOneOf row.old.items b → Stands placed.now b true) }
    ensures fewer { (b : ℕ) → IsOneOf row.new.items b → IsOneOf row.old.items b }
    ensures kept { (b : ℕ) → IsOneOf row.old.items b
        → Stands placed.now b true ⊎ IsOneOf row.new.items b }
{
    while let Some(body) = row.last().copied() {
        let place = body as usize;
        if !placed[place] {
            return Some(body);
        }
        let _ = row.pop();
    }
    None
}

/// As many empty rows.
pub(crate) fn empty_rows(alloc: Global, count: usize) -> Result<Vec<Vec<u32>>, Memory>
    ensures long { IfOk result (λ rows. length rows.items ≡ count) }
    ensures none { IfOk result (λ rows. (a b : ℕ) → IsInRow rows.items a b → ⊥) }
{
    let mut rows: Vec<Vec<u32>> = Vec::with_capacity(alloc, count)?;
    while rows.len() < count {
        rows.push(Vec::new(alloc))?;
    }
    Ok(rows)
}

impl Sorting {
    fn new(alloc: Global, rows: Vec<Vec<u32>>) -> Result<Sorting, Memory>
        requires { (a b : ℕ) → IsInRow rows.items a b → b < length rows.items }
        ensures { IfOk result (λ s. (pending : List ℕ)
            → ((a : ℕ) → a < length rows.items → IsOneOf pending a)
            → ((a : ℕ) → IsOneOf pending a → a < length rows.items)
            → IsSorting rows.items s 0 pending) }
    {
        let count = rows.len();
        Ok(Sorting {
            rows,
            waiting: empty_rows(alloc, count)?,
            placed: vec![in alloc; false; count]?,
            order: Vec::new(alloc),
        })
    }

    // Places a body, where it is not placed yet.
    fn place(&mut self, body: u32) -> Result<(), Memory>
        requires { body < length self.old.placed.items }
        ensures opens { IsSeen self.old.placed.items self.old.order.items
            → OnOk result (OpensOne body self.old.order.items self.new.order.items self.new.placed.items) }
        ensures rows { self.new.rows ≡ self.old.rows }
        ensures waiting { self.new.waiting ≡ self.old.waiting }
        ensures long { length self.new.placed.items ≡ length self.old.placed.items }
    {
        let place = body as usize;
        if self.placed[place] {
            return Ok(());
        }
        self.placed[place] = true;
        self.order.push(body)?;
        Ok(())
    }

    // Has a body wait for one inside it that is not placed, or places it.
    fn settle(&mut self, body: u32) -> Result<(), Memory>
        requires { (next : ℕ) × (pending : List ℕ) × Sorts self.old next (body ∷ pending) }
        ensures { (rows : List (Vec ℕ Global)) (next : ℕ) (pending : List ℕ)
            → IsSorting rows self.old next (body ∷ pending)
            → OnOk result (IsSorting rows self.new next pending) }
    {
        match next_awaited(&mut self.rows[body as usize], &self.placed) {
            Some(awaited) => {
                self.waiting[awaited as usize].push(body)?;
                Ok(())
            }
            None => self.place(body),
        }
    }

    // Settles each of these bodies.
    fn settle_all(&mut self, bodies: &[u32]) -> Result<(), Memory>
        requires { (next : ℕ) × Sorts self.old next bodies.now }
        ensures { (rows : List (Vec ℕ Global)) (next : ℕ) → IsSorting rows self.old next bodies.now
            → OnOk result (IsSorting rows self.new next []) }
    {
        for body in bodies {
            self.settle(*body)?;
        }
        Ok(())
    }

    // Settles the bodies that wait for those in the order, as long as there are any.
    fn release_all(&mut self, alloc: Global) -> Result<(), Memory>
        requires { Sorts self.old 0 [] }
        ensures { (rows : List (Vec ℕ Global)) → IsSorting rows self.old 0 []
            → OnOk result (IsBodyOrder rows self.new.order.items) }
    {
        for next in 0..self.placed.len() {
            if next >= self.order.len() {
                return Ok(());
            }
            let place = self.order[next] as usize;
            let waiting = mem::replace(&mut self.waiting[place], Vec::new(alloc));
            self.settle_all(&waiting)?;
        }
        Ok(())
    }
}
