//! Events with two live edges, and the events that have one.

ghost use Rattle.std.specs.Prelude.{◌≡◌, ◌<◌, length, IfOk};
ghost use Rattle.mode_search.specs.Sharing.{HaveEventsWithin, IsSharing, Notes, lesser_found};

use crate::listing::Live;
use ar_base::{EventId, Memory};
use std::alloc::Global;

/// What events share.
#[derive(Drop)]
pub struct Sharing {
    /// For each event the variable of its first live edge.
    pub firsts: Vec<Option<u32>>,
    /// The events that have a live edge, each once.
    pub events: Vec<EventId>,
    /// The least variable of the first live edge of an event that has two.
    pub least: Option<u32>,
}

/// Which of so many events have a live edge among these, and which have two. The error is want of memory.
pub fn shared(alloc: Global, count: usize, live: &[Live]) -> Result<Sharing, Memory>
    requires { HaveEventsWithin count live.now }
    ensures { IfOk result (IsSharing count live.now (length live.now)) }
{
    let mut found = Sharing {
        firsts: vec![in alloc; None; count]?,
        events: Vec::new(alloc),
        least: None,
    };
    for one in live {
        note(one.edge.event, one.variable.n, &mut found)?;
    }
    Ok(found)
}

// One live edge more, of this event and this variable.
fn note(event: EventId, variable: u32, found: &mut Sharing) -> Result<(), Memory>
    requires { event.n < length found.old.firsts.items }
    ensures { IfOk result (λ _. Notes event variable found.old found.new) }
{
    let place = event.n as usize;
    match found.firsts[place] {
        Some(first) => {
            found.least = Some(lesser(found.least, first));
            Ok(())
        }
        None => {
            found.events.push(event)?;
            found.firsts[place] = Some(variable);
            Ok(())
        }
    }
}

// The lesser of what was found and this number.
fn lesser(least: Option<u32>, number: u32) -> u32
    ensures { result ≡ lesser_found least number }
{
    match least {
        Some(n) => if number < n { number } else { n },
        None => number,
    }
}
