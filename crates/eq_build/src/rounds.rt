//! When the rounds of a block of flows are over.

ghost use Rattle.std.specs.Prelude.{◌≡◌, ◌<◌, ◌↔◌, length, true, false};

/// Whether a block of flows needs another round behind so many: as many as it has flows, unless the last one left all as it
/// was. Takes no memory.
pub fn needs_round(block: &[u32], made: usize, still: bool) -> bool
    ensures { (result ≡ true) ↔ ((made < length block.now) × (still ≡ false)) }
{
    made < block.len() && !still
}
