//! The stages from a flat system to what its variables reach, each with the rules that it judges.

ghost use Rattle.std.specs.Prelude.{◌≡◌, length, IfOk};
ghost use Rattle.gts_core.specs.Sound.{IsSound};
ghost use Rattle.gts_core.specs.View.{Views};
ghost use Rattle.mode_search.specs.Events.{plain_event_numbers, AreFirstStates};
ghost use Rattle.mode_search.specs.Reaches.{AreKeptWaysOf};
ghost use Rattle.static_fragment.specs.Shown.{lesser_of_both};
ghost use Rattle.static_fragment.specs.Stages.{Judges, HasUnits, HasKeptWays, HasReaches, HasSharing, IsSeenBelow, AreFromWays};

use crate::faults::{FragmentFault, Spot};
use crate::showing::at_variable;
use ar_base::{EventId, UnitId, VarId};
use gts_core::GtsParts;
use mode_search::{
    KeptWay, Reach, Sharing, Wide, all_reached, first_joint, first_stateless, first_states,
    first_wide, kept_ways, least_action, least_guard, least_wrong, live_edges, marked,
    moving_units, shared,
};
use std::alloc::Global;

// What is read of the units.
#[derive(Drop)]
pub(crate) struct Units {
    // For each event whether it is dropped.
    pub(crate) marks: Vec<bool>,
    // For each unit whether one of its events that are not dropped has a way.
    pub(crate) moving: Vec<bool>,
    // For each unit its first state variable.
    pub(crate) firsts: Vec<Option<VarId>>,
}

// The units, where the first two rules are kept.
pub(crate) fn judged_units(
    alloc: Global,
    parts: &GtsParts,
    dropped: &[EventId],
) -> Result<Units, FragmentFault>
    requires { IsSound parts.now }
    ensures marks { IfOk result (λ u. length u.marks.items ≡ length parts.now.events.items) }
    ensures moving { IfOk result (λ u. length u.moving.items ≡ length parts.now.units.items) }
    ensures firsts { IfOk result (λ u. AreFirstStates parts.now
        (length parts.now.variables.items) u.firsts.items) }
    ensures rules { Judges (λ system d. Views parts.now system × (d ≡ plain_event_numbers dropped.now))
        (λ system d u. HasUnits parts.now u system d) result }
{
    if let Some(event) = first_joint(parts) {
        return Err(FragmentFault::Outside(1, Spot::Event(EventId::new(event))));
    }
    let marks = marked(alloc, parts.events.len(), dropped)?;
    let moving = moving_units(alloc, parts, &marks)?;
    let firsts = first_states(alloc, parts)?;
    if let Some(unit) = first_stateless(&moving, &firsts) {
        return Err(FragmentFault::Outside(2, Spot::Unit(UnitId::new(unit))));
    }
    Ok(Units {
        marks,
        moving,
        firsts,
    })
}

// The ways of the events that are not dropped, where the third rule is kept.
pub(crate) fn judged_ways(
    alloc: Global,
    parts: &GtsParts,
    units: &Units,
) -> Result<Vec<KeptWay>, FragmentFault>
    requires sound { IsSound parts.now }
    requires marks { length units.now.marks.items ≡ length parts.now.events.items }
    requires firsts { AreFirstStates parts.now (length parts.now.variables.items)
        units.now.firsts.items }
    ensures listed { IfOk result (λ kept. AreKeptWaysOf parts.now kept.items) }
    ensures rules { Judges (HasUnits parts.now units.now)
        (λ system d kept. HasKeptWays parts.now kept.items system d) result }
{
    let kept = kept_ways(alloc, parts, &units.marks, &units.firsts)?;
    at_variable(3, least_guard(&kept))?;
    Ok(kept)
}

// What each variable reaches, where the fourth rule is kept.
pub(crate) fn judged_reaches(
    alloc: Global,
    parts: &GtsParts,
    kept: &[KeptWay],
) -> Result<Vec<Reach>, FragmentFault>
    requires sound { IsSound parts.now }
    requires listed { AreKeptWaysOf parts.now kept.now }
    ensures found { IfOk result (λ reaches. AreFromWays parts.now reaches.items) }
    ensures rules { Judges (HasKeptWays parts.now kept.now)
        (λ system d reaches. HasReaches 5 parts.now reaches.items system d) result }
{
    let reaches = all_reached(alloc, parts, kept)?;
    at_variable(4, lesser(least_action(kept), least_wrong(&reaches)))?;
    Ok(reaches)
}

// What the live edges share, where the fifth rule is kept.
pub(crate) fn judged_sharing(
    alloc: Global,
    parts: &GtsParts,
    reaches: &[Reach],
) -> Result<Sharing, FragmentFault>
    requires sound { IsSound parts.now }
    requires found { AreFromWays parts.now reaches.now }
    ensures { Judges (HasReaches 5 parts.now reaches.now) (λ system d s. HasSharing 6 s system d)
        result }
{
    let live = live_edges(alloc, reaches)?;
    let sharing = shared(alloc, parts.events.len(), &live)?;
    at_variable(5, sharing.least)?;
    Ok(sharing)
}

// Refuses where the seventh rule is broken.
pub(crate) fn judge_values(alloc: Global, parts: &GtsParts) -> Result<(), FragmentFault>
    requires { IsSound parts.now }
    ensures { Judges (IsSeenBelow 7 parts.now) (λ system d _. IsSeenBelow 8 parts.now system d) result }
{
    let Some(wide) = first_wide(alloc, parts)? else {
        return Ok(());
    };
    match wide {
        Wide::Flow(n) => Err(FragmentFault::Outside(7, Spot::Variable(VarId::new(n)))),
        Wide::Observer(n) => Err(FragmentFault::Outside(7, Spot::Observer(n))),
    }
}

// The lesser of two numbers, where there are both.
fn lesser(a: Option<u32>, b: Option<u32>) -> Option<u32>
    ensures { result ≡ lesser_of_both a b }
{
    match (a, b) {
        (Some(m), Some(n)) => if n < m { Some(n) } else { Some(m) },
        (Some(m), None) => Some(m),
        (None, other) => other,
    }
}
