//! What events are called.

ghost use Rattle.std.specs.Prelude.{◌≡◌, IfOk, map};
ghost use Rattle.gts_core.specs.declared.system.Event.{Event as OneEvent};
ghost use Rattle.gts_flatten.specs.Flat.{naming_of_parts};

use ar_base::{Memory, Text};
use gts_core::{Event, GtsParts};
use std::alloc::Global;

/// The canonical paths of the system's events, by number. The error is want of memory.
pub fn event_texts(alloc: Global, parts: &GtsParts) -> Result<Vec<Text>, Memory>
    ensures { IfOk result (λ texts. texts.items ≡ (naming_of_parts parts.now).events) }
{
    paths(alloc, &parts.events)
}

// The paths of these events.
fn paths(alloc: Global, events: &[Event]) -> Result<Vec<Text>, Memory>
    ensures { IfOk result (λ texts. texts.items ≡ map (λ (e : OneEvent). e.path) events.now) }
{
    let mut texts = Vec::new(alloc);
    for event in events {
        texts.push(event.path.copy(alloc)?)?;
    }
    Ok(texts)
}
