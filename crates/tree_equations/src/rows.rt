//! Rows of entries by variable.

ghost use Rattle.std.specs.Prelude.{◌≡◌, true, length};
ghost use Rattle.eq_build.specs.Views.{lists_in, row_at};
ghost use Rattle.eq_build.specs.Steps.{updated};
ghost use Rattle.tree_equations.specs.Index.{AreUnder};

use eq_build::Entry;

// Puts new rows in the places of the rows of these numbers.
pub(crate) fn put_rows(rows: &mut Vec<Vec<Entry>>, numbers: &[u32], new: Vec<Vec<Entry>>)
    requires long { length new.items ≡ length numbers.now }
    requires under { AreUnder (length rows.old.items) numbers.now }
    ensures reading { row_at rows.new.items
        ≡ updated (row_at rows.old.items) numbers.now (lists_in new.items) }
    ensures long { length rows.new.items ≡ length rows.old.items }
{
    let mut new = new;
    while let Some(row) = new.pop() {
        let number = numbers[new.len()];
        rows[number as usize] = row;
    }
}

// Whether new rows are the rows of these numbers already.
pub(crate) fn are_rows(rows: &[Vec<Entry>], numbers: &[u32], new: &[Vec<Entry>]) -> bool
    requires long { length new.now ≡ length numbers.now }
    requires under { AreUnder (length rows.now) numbers.now }
    ensures { result ≡ true → row_at rows.now
        ≡ updated (row_at rows.now) numbers.now (lists_in new.now) }
{
    for k in 0..new.len() {
        if !same_row(&rows[numbers[k] as usize], &new[k]) {
            return false;
        }
    }
    true
}

// Whether two rows are the same.
fn same_row(first: &[Entry], second: &[Entry]) -> bool
    ensures { result ≡ true → first.now ≡ second.now }
{
    if first.len() != second.len() {
        return false;
    }
    for k in 0..first.len() {
        if first[k] != second[k] {
            return false;
        }
    }
    true
}
