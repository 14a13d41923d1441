//! Marks by number.

ghost use Rattle.std.specs.Prelude.{◌≡◌, true, slice_set};

/// Sets the mark of this number, if there is one. Takes no memory.
pub fn mark(marks: &mut Vec<bool>, n: u32)
    ensures { marks.new.items ≡ slice_set marks.old.items n true }
{
    let place = n as usize;
    if place < marks.len() {
        marks[place] = true;
    }
}
