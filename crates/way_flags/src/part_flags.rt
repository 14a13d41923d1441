//! The flags of ways, by number, and whether a way can fire by the flags of its parts.
//!
//! A part of a way is another way, with a mark: true for `!`, which has to fire, and false for `?`, which fires if it can.

ghost use Rattle.std.specs.Prelude.{◌≡◌};
ghost use Rattle.way_flags.specs.Parts.{flag_at, has_must_in, musts_by, some_by};

use ar_base::WayId;

/// The flag of a way; false past the end.
pub fn is_set(flags: &[bool], way: WayId) -> bool
    ensures { result ≡ flag_at flags.now way.n }
{
    match flags.get(way.n as usize) {
        Some(flag) => *flag,
        None => false,
    }
}

/// Whether one of the parts is marked `!`. Takes no memory, as the next two.
pub fn has_must(parts: &[(bool, WayId)]) -> bool
    ensures { result ≡ has_must_in parts.now }
{
    for (must, _) in parts {
        if *must {
            return true;
        }
    }
    false
}

/// Whether each part that is marked `!` can fire.
pub fn musts_can(flags: &[bool], parts: &[(bool, WayId)]) -> bool
    ensures { result ≡ musts_by flags.now parts.now }
{
    for (must, way) in parts {
        if *must && !is_set(flags, *way) {
            return false;
        }
    }
    true
}

/// Whether one of the parts can fire.
pub fn some_can(flags: &[bool], parts: &[(bool, WayId)]) -> bool
    ensures { result ≡ some_by flags.now parts.now }
{
    for (_, way) in parts {
        if is_set(flags, *way) {
            return true;
        }
    }
    false
}
