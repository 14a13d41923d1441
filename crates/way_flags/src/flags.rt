//! Which ways can fire.

ghost use Rattle.std.specs.Prelude.{◌≡◌, ◌<◌, true, false, length, replicate, IfOk};
ghost use Rattle.gts_core.specs.Sound.{IsSound};
ghost use Rattle.gts_core.specs.Readings.{IsTotal};
ghost use Rattle.way_flags.specs.Ways.{can_by, IsWayOrder, AreFlags};

use crate::{has_must, musts_can, some_can};
use ar_base::{Memory, WayId};
use domains::Value;
use gts_core::{GtsParts, WayBody, is_met};
use std::alloc::Global;

/// So many flags, none of them set.
pub(crate) fn unset(alloc: Global, count: usize) -> Result<Vec<bool>, Memory>
    ensures { IfOk result (λ flags. flags.items ≡ replicate count false) }
{
    let flags = vec![in alloc; false; count]?;
    Ok(flags)
}

// Whether a way can fire, where the flags of its parts are right.
pub(crate) fn can_fire(values: &[Value], flags: &[bool], body: &WayBody) -> bool
    ensures { result ≡ can_by values.now flags.now body.now }
{
    match body {
        WayBody::Local(guard, _) => is_met(values, guard, true),
        WayBody::Sync(parts) => {
            if has_must(parts) {
                musts_can(flags, parts)
            } else {
                some_can(flags, parts)
            }
        }
    }
}

/// Sets the flag of each way that can fire. Each way is looked at once, after its parts. Takes no memory.
pub(crate) fn set_all(parts: &GtsParts, order: &[WayId], values: &[Value], flags: &mut Vec<bool>)
    requires sound { IsSound parts.now }
    requires order { IsWayOrder parts.now order.now }
    requires total { IsTotal parts.now values.now }
    requires long { length flags.old.items ≡ length parts.now.ways.items }
    ensures { AreFlags parts.now values.now flags.new.items }
{
    for way in order {
        let n = way.n as usize;
        let can = can_fire(values, flags, &parts.ways[n].body);
        flags[n] = can;
    }
}
