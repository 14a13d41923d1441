//! Pieces of a text that go to a sink one behind the other.

ghost use Rattle.std.specs.Prelude.{◌≡◌, ◌++◌, codes, decimal, slice_get};
ghost use Rattle.ar_io.specs.Handing.{Writes};
ghost use Rattle.ar_base.specs.Texts.{text_at};
ghost use Rattle.gts_flatten.specs.Flat.{naming_of_parts};
ghost use Rattle.text_pieces.specs.WayLabels.{ways_found};

use ar_base::Place;
use ar_io::{Sink, SinkFailed, write_number, write_text};
use gts_core::GtsParts;

/// The path of the variable of this number; empty where there is none.
pub fn variable_path(parts: &GtsParts, n: u32) -> &str
    ensures { result.now ≡ text_at (naming_of_parts parts.now).variables n }
{
    gts_core::variable_path(parts, n)
}

/// The path of the event of this number; empty where there is none.
pub fn event_path(parts: &GtsParts, n: u32) -> &str
    ensures { result.now ≡ text_at (naming_of_parts parts.now).events n }
{
    gts_core::event_path(parts, n)
}

/// The path of the observer of this number; empty where there is none.
pub fn observer_path(parts: &GtsParts, n: u32) -> &str
    ensures { result.now ≡ text_at (naming_of_parts parts.now).observers n }
{
    match parts.observers.get(n as usize) {
        Some(observer) => observer.path.as_str(),
        None => "",
    }
}

/// How many ways the event of this number has; 0 where there is none.
pub fn way_count(parts: &GtsParts, n: u32) -> usize
    ensures { result ≡ ways_found (slice_get parts.now.events.items n) }
{
    match parts.events.get(n as usize) {
        Some(event) => event.ways.len(),
        None => 0,
    }
}

/// Writes a place in the model.
pub fn place<K: Sink>(out: &mut K, at: Place) -> Result<(), SinkFailed>
    ensures { Writes (K.state out.old) (K.state out.new)
        (decimal at.line ++ (codes ":" ++ decimal at.column)) result }
{
    write_number(out, at.line)?;
    write_text(out, ":")?;
    write_number(out, at.column)
}
