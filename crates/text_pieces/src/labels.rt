//! Canonical labels.

ghost use Rattle.std.specs.Prelude.{◌<◌, ◌-◌, length, slice_get};
ghost use Rattle.ar_base.specs.Texts.{text_at};
ghost use Rattle.ar_io.specs.Handing.{Writes};
ghost use Rattle.ar_meaning.specs.TraceText.{way_text};
ghost use Rattle.gts_flatten.specs.Flat.{naming_of_parts};
ghost use Rattle.text_pieces.specs.WayLabels.{way_label, ways_found};

use crate::pieces::{event_path, way_count};
use ar_base::WayId;
use ar_io::{Sink, SinkFailed, write_number, write_text};
use gts_core::{Gts, GtsParts};

/// Writes the canonical label of a way: the path of its event, and `#k` behind it where the event has other ways. Takes
/// no memory.
pub fn print_label<K: Sink>(gts: &Gts, way: WayId, out: &mut K) -> Result<(), SinkFailed>
    requires { way.n < length gts.now.ways.items }
    ensures { Writes (K.state out.old) (K.state out.new) (way_label gts.now way.n) result }
{
    let parts = gts.parts();
    let found = &parts.ways[way.n as usize];
    label(out, parts, found.event.n, found.number)
}

// The label of a way of an event, by the way's number from 1.
fn label<K: Sink>(out: &mut K, parts: &GtsParts, event: u32, k: u32) -> Result<(), SinkFailed>
    requires { 0 < k }
    ensures { Writes (K.state out.old) (K.state out.new)
        (way_text (text_at (naming_of_parts parts.now).events event)
        (ways_found (slice_get parts.now.events.items event)) (k - 1)) result }
{
    let path = event_path(parts, event);
    if way_count(parts, event) == 1 {
        write_text(out, path)
    } else {
        write_text(out, path)?;
        write_text(out, "#")?;
        write_number(out, k)
    }
}
