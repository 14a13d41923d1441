//! Flags that are turned.

ghost use Rattle.std.specs.Prelude.{◌≡◌, not, slice_set};
ghost use Rattle.way_flags.specs.Parts.{flag_at};
ghost use Rattle.way_flags.specs.Turning.{flags_turned};

use ar_base::WayId;

/// Turns the flags of these ways round. Takes no memory.
pub fn turn(flags: &mut Vec<bool>, ways: &[WayId])
    ensures { flags.new.items ≡ flags_turned flags.old.items ways.now }
{
    for way in ways {
        turn_one(flags, *way);
    }
}

// Turns the flag of a way round.
pub(crate) fn turn_one(flags: &mut Vec<bool>, way: WayId)
    ensures { flags.new.items ≡ slice_set flags.old.items way.n
        (not (flag_at flags.old.items way.n)) }
{
    let n = way.n as usize;
    if n < flags.len() {
        flags[n] = !flags[n];
    }
}
