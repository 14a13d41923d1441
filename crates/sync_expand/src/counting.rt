//! How many ways events have, and how many parts their synchronised ways have.

ghost use Rattle.std.specs.Prelude.{◌≡◌, ◌<◌, ◌≤◌, ℕ, List, Ok, map, min, length, OnOk, IfOk, IfErr};
ghost use Rattle.ar_base.specs.Lists.{Stands};
ghost use Rattle.ar_base.specs.Stages.{Fits};
ghost use Rattle.ar_base.specs.StagesInside.{Meets, IsRefusal, rule_told};
ghost use Rattle.ar_base.specs.declared.counts.Count.TheVariants.{Ways, WayParts};
ghost use Rattle.gts_core.specs.Bound.{declared_from, event_part_of, member_of};
ghost use Rattle.gts_core.specs.declared.bound.DeclaredEvent.{DeclaredEvent};
ghost use Rattle.sync_expand.specs.Tallies.{ArePartsCounted, CountsOne, IsByRank};
ghost use Rattle.sync_expand.specs.Counts.{AreCounts, AreFew, all_parts, choice_count as choices_of, member_count, member_parts, parts_given, way_count as ways_given};
ghost use Rattle.sync_expand.specs.Expanding.{AreExpandable};
ghost use Rattle.sync_expand.specs.Counting.{greatest};
ghost use Rattle.sync_expand.specs.Links.{Falls};

use crate::numbers::number_at;
use ar_base::{Count, EventId, Memory, RuleFault, numbers_below};
use gts_core::{DeclaredEvent, DeclaredWay};
use std::alloc::Global;

// One more than the ways that an event may have: no count goes on beyond it.
const TOO_MANY: u32 = 257;

// One more than the parts that synchronised ways may have.
const TOO_MANY_PARTS: u64 = 1_000_001;

/// The number of ways of each event. Refused where an event has more than the limit.
///
/// Each part has a lesser rank than the event that names it, and so the events are counted by their
/// ranks. A count stops at one more than the limit.
pub(crate) fn count_ways(
    alloc: Global,
    events: &[DeclaredEvent],
    ranks: &[u32],
) -> Result<Vec<u32>, RuleFault>
    requires expandable { AreExpandable events.now }
    requires falls { Falls events.now ranks.now }
    ensures { (counts : List ℕ) → AreCounts (declared_from 0 events.now) counts
        → Meets (Fits Ways greatest) (λ c found. found.items ≡ c) counts result }
{
    let order = by_rank(alloc, ranks, events.len())?;
    let mut counts = no_counts(alloc, events.len())?;
    for event in &order {
        count_event(events, *event, &mut counts)?;
    }
    Ok(counts)
}

// The numbers of so many events, those of lesser ranks first.
fn by_rank(alloc: Global, ranks: &[u32], count: usize) -> Result<Vec<u32>, Memory>
    requires { count ≤ 16384 }
    ensures { IfOk result (λ order. IsByRank count ranks.now order.items) }
{
    let mut order = numbers_below(alloc, count)?;
    order.sort_by_key(|event| number_at(ranks, EventId::new(*event)))?;
    Ok(order)
}

// A count of 0 for each event.
fn no_counts(alloc: Global, many: usize) -> Result<Vec<u32>, Memory>
    ensures { IfOk result (λ counts. length counts.items ≡ many) }
{
    Ok(vec![in alloc; 0; many]?)
}

// Counts the ways of an event whose parts are counted.
fn count_event(events: &[DeclaredEvent], event: u32, found: &mut [u32]) -> Result<(), RuleFault>
    requires event { event < length events.now }
    requires found { length found.old ≡ length events.now }
    requires parts { (counts : List ℕ) → AreCounts (declared_from 0 events.now) counts
        → (d : DeclaredEvent) → Stands events.now event d
        → ArePartsCounted counts found.old d.ways.items }
    ensures ok { (counts : List ℕ) → AreCounts (declared_from 0 events.now) counts
        → OnOk result (CountsOne counts event found.old found.new) }
    ensures err { (counts : List ℕ) → AreCounts (declared_from 0 events.now) counts
        → IfErr result (λ e. IsRefusal (Fits Ways greatest counts) (rule_told e)) }
{
    let place = event as usize;
    let count = way_count(&events[place].ways, found);
    if count >= TOO_MANY {
        return Err(RuleFault::Limit(Count::Ways));
    }
    found[place] = count;
    Ok(())
}

// The number of ways that these give, or one more than the limit where there are more.
fn way_count(ways: &[DeclaredWay], counts: &[u32]) -> u32
    ensures { result ≡ min 257 (ways_given counts.now (map member_of ways.now)) }
{
    let mut total: u32 = 0;
    for way in ways {
        let more = one_count(way, counts);
        total = total.saturating_add(more).min(TOO_MANY);
    }
    total
}

fn one_count(way: &DeclaredWay, counts: &[u32]) -> u32
    ensures { result ≡ min 257 (member_count counts.now (member_of way.now)) }
{
    match way {
        DeclaredWay::Local(_, _) => 1,
        DeclaredWay::Sync(parts, _) => choice_count(parts, counts),
    }
}

/// The number of choices of one way for each part, or one more than the limit where there are more.
pub(crate) fn choice_count(parts: &[(bool, EventId)], counts: &[u32]) -> u32
    ensures { result ≡ min 257 (choices_of counts.now (map event_part_of parts.now)) }
{
    let mut product: u32 = 1;
    for (_, event) in parts {
        let count = number_at(counts, *event);
        product = product.saturating_mul(count).min(TOO_MANY);
    }
    product
}

/// Refuses where the synchronised ways have more parts together than the limit.
pub(crate) fn fit_parts(events: &[DeclaredEvent], counts: &[u32]) -> Result<(), RuleFault>
    ensures { AreFew counts.now (declared_from 0 events.now)
        → Meets (Fits WayParts (λ c. all_parts c (declared_from 0 events.now))) (λ _ _. Unit {0})
        counts.now result }
{
    let mut total: u64 = 0;
    for declared in events {
        let more = part_count(&declared.ways, counts);
        total = total.saturating_add(more).min(TOO_MANY_PARTS);
    }
    if total >= TOO_MANY_PARTS {
        return Err(RuleFault::Limit(Count::WayParts));
    }
    Ok(())
}

// The number of parts of the synchronised ways that these give, or one more than the limit where
// there are more.
fn part_count(ways: &[DeclaredWay], counts: &[u32]) -> u64
    ensures { ways_given counts.now (map member_of ways.now) ≤ 256
        → result ≡ min 1000001 (parts_given counts.now (map member_of ways.now)) }
{
    let mut total: u64 = 0;
    for way in ways {
        let more = parts_of_one(way, counts);
        total = total.saturating_add(more).min(TOO_MANY_PARTS);
    }
    total
}

fn parts_of_one(way: &DeclaredWay, counts: &[u32]) -> u64
    ensures { member_count counts.now (member_of way.now) ≤ 256
        → result ≡ min 1000001 (member_parts counts.now (member_of way.now)) }
{
    match way {
        DeclaredWay::Local(_, _) => 0,
        DeclaredWay::Sync(parts, _) => {
            let choices = u64::from(choice_count(parts, counts));
            choices
                .saturating_mul(parts.len() as u64)
                .min(TOO_MANY_PARTS)
        }
    }
}
