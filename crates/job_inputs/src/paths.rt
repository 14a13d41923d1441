//! The events that the paths of labels name.

ghost use Rattle.std.specs.Prelude.{IfOk, IfSome};
ghost use Rattle.ar_base.specs.Lists.{AreDifferent};
ghost use Rattle.gts_flatten.specs.Elaborating.{Elaborated};
ghost use Rattle.job_inputs.specs.Flat.{IsOfTree};
ghost use Rattle.job_inputs.specs.Reads.{AnswersNames, AnswersEvent, AnswersVisible, IsUnlessHidden};

use crate::cutting::first_piece;
use ar_base::{EventId, Memory, NameId, Names, UnitId};
use gts_core::{Gts, GtsParts};
use hierarchy::{First, Tree, event_at};
use std::alloc::Global;

/// The visible event that a path names, read from the main block.
pub(crate) fn visible_at(
    alloc: Global,
    tree: &Tree,
    gts: &Gts,
    path: &[u8],
) -> Result<Option<EventId>, Memory>
    requires { (x : Elaborated) × IsOfTree x tree.now gts.now }
    ensures { (x : Elaborated) → IsOfTree x tree.now gts.now
        → IfOk result (AnswersVisible x gts.now path.now) }
{
    match event_named(alloc, tree, gts, path)? {
        Some(event) => Ok(unless_hidden(gts.parts(), event)),
        None => Ok(None),
    }
}

// The event, if it is visible.
fn unless_hidden(parts: &GtsParts, event: EventId) -> Option<EventId>
    ensures { IsUnlessHidden parts.now event result }
{
    match parts.events.get(event.n as usize) {
        Some(found) => if found.hidden { None } else { Some(event) },
        None => None,
    }
}

/// The event that a path names, read from the main block: one that is hidden too, and through aliases too. None exactly
/// where it names no event. The error is want of memory.
pub fn event_named(
    alloc: Global,
    tree: &Tree,
    gts: &Gts,
    path: &[u8],
) -> Result<Option<EventId>, Memory>
    requires { (x : Elaborated) × IsOfTree x tree.now gts.now }
    ensures { (x : Elaborated) → IsOfTree x tree.now gts.now
        → IfOk result (AnswersEvent x path.now) }
{
    match names_of(alloc, &tree.classes.names, path)? {
        Some(names) => Ok(event_at(tree, UnitId::new(0), First::Here, &names)),
        None => Ok(None),
    }
}

/// The names between the dots of a path, where each is in the table of names. None exactly where one of them is not. The
/// error is want of memory.
pub fn names_of(alloc: Global, table: &Names, path: &[u8]) -> Result<Option<Vec<NameId>>, Memory>
    ensures names { IfOk result (AnswersNames table.now path.now) }
    ensures different { IfOk result (λ names. IfSome names (λ _. AreDifferent table.now)) }
{
    let mut names = Vec::new(alloc);
    let mut rest = Some(path);
    while let Some(bytes) = rest {
        let (piece, after) = first_piece(bytes, b'.');
        let Some(name) = table.find_bytes(piece) else {
            return Ok(None);
        };
        names.push(name)?;
        rest = after;
    }
    Ok(Some(names))
}
