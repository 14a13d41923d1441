//! The visible ways that can fire, found once where no step comes between.

ghost use Rattle.std.specs.Prelude.{◌≡◌, ℕ, Bool, IfOk, OnOk};
ghost use Rattle.gts_core.specs.Sound.{IsSound};
ghost use Rattle.replayer.specs.Listing.{AreAnswers, AreInside, visible_ways, able, AreReadyWays, IsListReady};

use ar_base::{Memory, WayId};
use gts_core::Event;
use std::alloc::Global;
use stepper::Stepper;

/// The visible ways, and those of them that can fire where they are found, so that lines of
/// `enabled` one after the other look at no others.
#[derive(Drop)]
pub(crate) struct Ready {
    /// The visible ways, by event and way.
    pub visible: Vec<WayId>,
    /// Those of them that can fire, in the same order, where they are found.
    pub ways: Vec<WayId>,
    /// Whether they are found, and no step came since.
    pub found: bool,
}

/// The ways of those of these events that are visible.
pub(crate) fn visible_ways(alloc: Global, events: &[Event]) -> Result<Vec<WayId>, Memory>
    ensures { IfOk result (λ ways. ways.items ≡ visible_ways events.now) }
{
    let mut ways = Vec::new(alloc);
    for event in events {
        if !event.hidden {
            ways.extend_from_slice(&event.ways)?;
        }
    }
    Ok(ways)
}

/// Finds the visible ways that can fire, where they are not found or a step came since.
pub(crate) fn find(alloc: Global, stepper: &Stepper, ready: &mut Ready) -> Result<(), Memory>
    requires sound { IsSound stepper.now.system }
    requires ready { IsListReady stepper.now.system stepper.now.values ready.old }
    ensures ready { OnOk result (IsListReady stepper.now.system stepper.now.values ready.new) }
    ensures found { OnOk result (AreReadyWays stepper.now.system stepper.now.values
        ready.new.ways.items) }
{
    if ready.found {
        return Ok(());
    }
    ready.ways = those(alloc, stepper, &ready.visible)?;
    ready.found = true;
    Ok(())
}

// Those of these ways that can fire.
fn those(alloc: Global, stepper: &Stepper, ways: &[WayId]) -> Result<Vec<WayId>, Memory>
    requires sound { IsSound stepper.now.system }
    requires inside { AreInside stepper.now.system ways.now }
    ensures { IfOk result (λ ready. (can : ℕ → Bool)
        → AreAnswers stepper.now.system stepper.now.values can → ready.items ≡ able can ways.now) }
{
    let mut ready = Vec::new(alloc);
    for way in ways {
        if stepper.enabled(*way) {
            ready.push(*way)?;
        }
    }
    Ok(ready)
}
