//! Numbers that lists have for events.

ghost use Rattle.std.specs.Prelude.{◌≡◌, slice_index};

use ar_base::EventId;

/// The number of the event in a list of numbers of events, or 0 past its end. Takes no memory.
pub(crate) fn number_at(list: &[u32], event: EventId) -> u32
    ensures { result ≡ slice_index list.now event.n }
{
    list.get(event.n as usize).copied().unwrap_or(0)
}
