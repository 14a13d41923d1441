//! The call that expands declared events.

ghost use Rattle.ar_base.specs.StagesInside.{Meets};
ghost use Rattle.sync_expand.specs.Expanding.{AreExpandable, ExpandsWays};
ghost use Rattle.sync_expand.specs.Planned.{IsWayPlan};

use crate::counting::{count_ways, fit_parts};
use crate::links::falling_ranks;
use crate::planning::{Numbering, plan};
use crate::plans::WayPlan;
use ar_base::RuleFault;
use gts_core::DeclaredEvent;
use std::alloc::Global;

/// The ways of declared events, event by event, those of an event in the order of its transitions
/// and synchronisations, and those of a synchronisation in lexicographic order of the choices of
/// one way for each part. An event without ways gives none to a synchronisation that names it.
///
/// Refused with rule L14 where an event is reached from one of its own synchronisations, at the
/// earliest place of one; then with `ways` where an event has more than 256; then with `way parts`
/// where the synchronised ways have more than 1,000,000 parts together. Nothing is expanded before.
pub fn ways(alloc: Global, events: &[DeclaredEvent]) -> Result<Vec<WayPlan>, RuleFault>
    requires { AreExpandable events.now }
    ensures { Meets ExpandsWays (λ ways plan. IsWayPlan events.now ways plan.items) events.now result }
{
    let ranks = falling_ranks(alloc, events)?;
    let counts = count_ways(alloc, events, &ranks)?;
    fit_parts(events, &counts)?;
    let numbering = Numbering::new(alloc, counts)?;
    Ok(plan(alloc, events, &numbering)?)
}
