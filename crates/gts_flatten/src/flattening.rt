//! The call that makes the flat system of bound forms.

ghost use Rattle.std.specs.Prelude.{◌≡◌, ◌<◌, ◌^◌, ℕ, List, map, length, IfOk};
ghost use Rattle.ar_base.specs.StagesInside.{Meets};
ghost use Rattle.hierarchy.specs.Listing.{AreUnits};
ghost use Rattle.hierarchy.specs.Models.{RootedModel};
ghost use Rattle.hierarchy.specs.ModelsInside.{KeepsTextRules};
ghost use Rattle.hierarchy.specs.Units.{UnitPath};
ghost use Rattle.gts_core.specs.Bound.{declared_from};
ghost use Rattle.source_meaning.specs.Binding.{IsBoundFrom};
ghost use Rattle.source_meaning.specs.SoundBound.{IsSoundBound};
ghost use Rattle.source_meaning.specs.Systems.{Declarations, AreOf};
ghost use Rattle.sync_expand.specs.Counts.{AreCounts};
ghost use Rattle.sync_expand.specs.Plans.{planned_ways};
ghost use Rattle.sync_expand.specs.Planned.{planned_of};
ghost use Rattle.gts_flatten.specs.Elaborating.{Flattens};
ghost use Rattle.gts_flatten.specs.Flat.{IsFlat};
ghost use Rattle.gts_flatten.specs.Making.{AreMadeOf};
ghost use Rattle.gts_flatten.specs.Placing.{AreDeclared};

use crate::copying::{copy_observers, copy_texts, copy_variables};
use crate::fitting::fit_nodes;
use crate::making::{assigns_of, events_of, ways_of};
use ar_base::{Memory, RuleFault};
use gts_core::{Gts, GtsParts};
use source_meaning::Bound;
use std::alloc::Global;
use sync_expand::{WayPlan, ways};

/// The flat system of bound forms, which are to be sound: each synchronisation becomes its ways, and each instruction
/// its assignments with their conditions from the outermost inward. Ways are numbered event by event.
///
/// Refused with rule L14, at the earliest place where it is broken; then with the limit `ways`, `way parts` or
/// `expression nodes` that is passed, in this order.
pub fn flatten(alloc: Global, bound: &Bound) -> Result<Gts, RuleFault>
    requires { IsSoundBound bound.now }
    ensures { (m : RootedModel) (units : List UnitPath) (d : Declarations) → KeepsTextRules m
        → AreUnits m units
        → AreOf m units d → IsBoundFrom d bound.now → Meets Flattens IsFlat d result }
{
    let plan = ways(alloc, &bound.events)?;
    fit_nodes(&bound.events, &bound.assertions, &bound.observers)?;
    let parts = parts_of(alloc, bound, &plan)?;
    Ok(Gts::new(parts))
}

// The parts of the flat system, with ways as they are planned.
fn parts_of(alloc: Global, bound: &Bound, plan: &[WayPlan]) -> Result<GtsParts, Memory>
    requires events { length bound.now.events.items < 2 ^ 32 }
    requires plan { length plan.now < 2 ^ 32 }
    requires declared { AreDeclared bound.now.events.items plan.now }
    ensures { (counts : List ℕ) → AreCounts (declared_from 0 bound.now.events.items) counts
        → map planned_of plan.now ≡ planned_ways counts (declared_from 0 bound.now.events.items)
        → IfOk result (AreMadeOf bound.now counts plan.now) }
{
    let symbols = copy_texts(alloc, &bound.symbols)?;
    let units = copy_texts(alloc, &bound.units)?;
    let variables = copy_variables(alloc, &bound.variables)?;
    let events = events_of(alloc, &bound.events, plan)?;
    let ways = ways_of(alloc, &bound.events, plan)?;
    let assigns = assigns_of(alloc, &bound.assertions)?;
    let observers = copy_observers(alloc, &bound.observers)?;
    Ok(GtsParts {
        symbols,
        units,
        variables,
        events,
        ways,
        assigns,
        observers,
    })
}
