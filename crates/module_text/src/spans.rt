//! The events of each unit.

ghost use Rattle.std.specs.Prelude.{◌+◌, ◌<◌, ◌≡◌, ◌^◌, ℕ, List, length, IfOk};
ghost use Rattle.ar_base.specs.Lists.{Stands};
ghost use Rattle.hierarchy.specs.Finding.{IsSomeTree};
ghost use Rattle.hierarchy.specs.Models.{RootedModel};
ghost use Rattle.hierarchy.specs.Tie.{IsTreeOf};
ghost use Rattle.hierarchy.specs.Units.{UnitPath};
ghost use Rattle.gate_modules.specs.ModulesInside.{AreRanges};
ghost use Rattle.gate_modules.specs.declared.ranges.Range.{Range};
ghost use Rattle.module_text.specs.Ranges.{AreRangesOf};
ghost use Rattle.module_text.specs.Spans.{StandBehindOwners, AreEmptyRanges, Gains, AllGain, IsAt, IsAtOver, ReachesTo, AllReach};

use ar_base::{Memory, UnitId};
use gate_modules::Range;
use hierarchy::{Tree, UnitNode};
use std::alloc::Global;

/// The events of each unit but the main block, with those of the units within it: a run of numbers, since a tree lists
/// its events by units, and its units depth first. The error is want of memory, and nothing else.
pub fn ranges(alloc: Global, tree: &Tree) -> Result<Vec<Range>, Memory>
    requires { IsSomeTree tree.now }
    ensures are_ranges { IfOk result (λ ranges. AreRanges ranges.items) }
    ensures of_units { (m : RootedModel) (units : List UnitPath) → IsTreeOf m units tree.now
        → IfOk result (λ ranges. AreRangesOf m units ranges.items) }
{
    let mut ranges = empty_ranges(alloc, &tree.units)?;
    for (number, event) in tree.events.iter().enumerate() {
        add_event(&tree.units, event.unit, number as u32, &mut ranges);
    }
    Ok(ranges)
}

// Ranges without events of the units but the main block, which is the first of them.
fn empty_ranges(alloc: Global, units: &[UnitNode]) -> Result<Vec<Range>, Memory>
    requires { length units.now < 2 ^ 32 }
    ensures { IfOk result (λ ranges. AreEmptyRanges (length units.now) ranges.items) }
{
    let mut ranges = Vec::new(alloc);
    for number in 1..units.len() as u32 {
        ranges.push(Range {
            unit: UnitId::new(number),
            from: 0,
            to: 0,
        })?;
    }
    Ok(ranges)
}

// Adds an event of this unit to the ranges of the unit and of those above it but the main block. Takes no memory.
fn add_event(units: &[UnitNode], unit: UnitId, event: u32, ranges: &mut [Range])
    requires owners { StandBehindOwners units.now }
    requires small { event + 1 < 2 ^ 32 }
    requires known { unit.n < length units.now }
    requires room { length ranges.old + 1 ≡ length units.now }
    requires next { AllReach units.now unit.n event ranges.old }
    ensures { AllGain (IsAtOver units.now unit.n event) ranges.old ranges.new }
{
    let Some(owner) = units[unit.n as usize].owner else {
        return;
    };
    add_at(ranges, (unit.n - 1) as usize, event);
    add_event(units, owner, event, ranges);
}

// Adds the event to the range at this place, which reaches up to it. Takes no memory.
fn add_at(ranges: &mut [Range], place: usize, event: u32)
    requires small { event + 1 < 2 ^ 32 }
    requires there { place < length ranges.old }
    requires next { (r : Range) → Stands ranges.old place r → ReachesTo event r }
    ensures { AllGain (IsAt place event) ranges.old ranges.new }
{
    ranges[place] = with_event(ranges[place], event);
}

// The range with the event besides, which is right behind the others. Takes no memory.
fn with_event(range: Range, event: u32) -> Range
    requires small { event + 1 < 2 ^ 32 }
    requires next { ReachesTo event range }
    ensures { Gains (λ x. x ≡ event) range result }
{
    if range.from >= range.to {
        return Range {
            unit: range.unit,
            from: event,
            to: event + 1,
        };
    }
    Range {
        unit: range.unit,
        from: range.from,
        to: event + 1,
    }
}
