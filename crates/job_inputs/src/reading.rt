//! The events that a list names.

ghost use Rattle.gts_flatten.specs.Elaborating.{Elaborated};
ghost use Rattle.job_inputs.specs.Flat.{IsOfTree};
ghost use Rattle.job_inputs.specs.NamingInside.{AnswersEvents};

use crate::{event_named, first_piece};
use ar_base::{EventId, Memory};
use gts_core::Gts;
use hierarchy::Tree;
use std::alloc::{AllocFailed, Global};

/// Why a list gives no events.
#[derive(Clone, Copy)]
pub enum ListFault {
    /// One of its parts names no event.
    NoEvent,
    /// Memory was refused.
    Memory,
}

impl From<Memory> for ListFault {
    ghost use Rattle.std.specs.Prelude.{◌≡◌};
    ghost use Rattle.job_inputs.specs.declared.reading.ListFault.TheVariants as fault;

    ghost from_gives = { λ _ e. e ≡ fault.Memory };

    fn from(_memory: Memory) -> Self {
        ListFault::Memory
    }
}

impl<T: Drop> From<AllocFailed<T>> for ListFault {
    ghost use Rattle.std.specs.Prelude.{◌≡◌};
    ghost use Rattle.job_inputs.specs.declared.reading.ListFault.TheVariants as fault;

    ghost from_gives = { λ _ e. e ≡ fault.Memory };

    fn from(_failed: AllocFailed<T>) -> Self {
        ListFault::Memory
    }
}

/// The events that the parts of the text between its commas name, in order: each part is a path from the main block, which may
/// pass through aliases and may name a hidden event. NoEvent exactly where one of the parts names no event.
pub fn read_events(
    alloc: Global,
    tree: &Tree,
    gts: &Gts,
    text: &[u8],
) -> Result<Vec<EventId>, ListFault>
    requires { (x : Elaborated) × IsOfTree x tree.now gts.now }
    ensures { (x : Elaborated) → IsOfTree x tree.now gts.now
        → AnswersEvents x gts.now text.now result }
{
    let mut events = Vec::new(alloc);
    let mut rest = Some(text);
    while let Some(bytes) = rest {
        let (part, behind) = first_piece(bytes, b',');
        let Some(event) = event_named(alloc, tree, gts, part)? else {
            return Err(ListFault::NoEvent);
        };
        events.push(event)?;
        rest = behind;
    }
    Ok(events)
}
