//! How the flows depend on each other.

ghost use Rattle.std.specs.Prelude.{◌≡◌, ◌<◌, ◌+◌, ◌^◌, length, IfOk};
ghost use Rattle.gts_core.specs.Sound.{IsSound};
ghost use Rattle.ar_meaning.specs.Dependence.{AreUses};
ghost use Rattle.ar_meaning.specs.DependenceInside.{IsReadBy};
ghost use Rattle.gts_core.specs.View.{net_of};
ghost use Rattle.flow_propagate.specs.Plan.{AreReaders};
ghost use Rattle.flow_propagate.specs.Dependence.{flows_in, ArePlaces, AddsUse};

use ar_base::Memory;
use flow_blocks::Graph;
use gts_core::{GtsParts, Variable};
use std::alloc::Global;

// How many flows stand before each variable, and how many there are.
#[derive(Drop)]
pub(crate) struct FlowPlaces {
    pub(crate) before: Vec<u32>,
    pub(crate) count: u32,
}

// The places of the flows among the flows.
pub(crate) fn flow_places(alloc: Global, variables: &[Variable]) -> Result<FlowPlaces, Memory>
    requires { length variables.now < 2 ^ 32 }
    ensures places { IfOk result (λ places.
        ArePlaces variables.now (length variables.now) places.before.items) }
    ensures count { IfOk result (λ places. places.count ≡ flows_in variables.now) }
{
    let mut before = Vec::new(alloc);
    let mut count = 0;
    for variable in variables {
        before.push(count)?;
        if !variable.is_state {
            count += 1;
        }
    }
    Ok(FlowPlaces { before, count })
}

// The flows with their dependences.
pub(crate) fn dependences(
    alloc: Global,
    parts: &GtsParts,
    places: &FlowPlaces,
    readers: &[(u32, u32)],
) -> Result<Graph, Memory>
    requires sound { IsSound parts.now }
    requires places { ArePlaces parts.now.variables.items (length parts.now.variables.items)
        places.now.before.items }
    requires readers { AreReaders parts.now readers.now }
    ensures uses { IfOk result (λ graph. AreUses (net_of parts.now) graph.uses.items) }
    ensures count { IfOk result (λ graph. graph.count ≡ places.now.count) }
{
    let mut uses = Vec::new(alloc);
    for (variable, assign) in readers {
        add_use(parts, places, *variable, *assign, &mut uses)?;
    }
    Ok(Graph {
        count: places.count,
        uses,
    })
}

// Adds the dependence of an assignment's target on a variable that the assignment names, where the variable is a flow.
fn add_use(
    parts: &GtsParts,
    places: &FlowPlaces,
    variable: u32,
    assign: u32,
    uses: &mut Vec<(u32, u32)>,
) -> Result<(), Memory>
    requires sound { IsSound parts.now }
    requires places { ArePlaces parts.now.variables.items (length parts.now.variables.items)
        places.now.before.items }
    requires reads { IsReadBy (net_of parts.now) variable assign }
    ensures { IfOk result (λ _. AddsUse parts.now variable assign uses.old.items uses.new.items) }
{
    if parts.variables[variable as usize].is_state {
        return Ok(());
    }
    let target = parts.assigns[assign as usize].target.n;
    uses.push((
        places.before[target as usize],
        places.before[variable as usize],
    ))?;
    Ok(())
}
