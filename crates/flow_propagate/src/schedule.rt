//! The order in which assignments are looked at.

ghost use Rattle.std.specs.Prelude.{◌≡◌, ℕ, length, IfOk};
ghost use Rattle.ar_base.specs.Lists.{Stands};
ghost use Rattle.gts_core.specs.Sound.{IsSound};
ghost use Rattle.flow_propagate.specs.Plan.{IsNumberOrder, IsSchedule};

use ar_base::{AssignId, Memory, VarId, numbers_below};
use flow_blocks::Block;
use gts_core::{GtsParts, Variable};
use std::alloc::Global;

// An order of the assignments, and the place of each of them in it.
#[derive(Drop)]
pub(crate) struct Schedule {
    pub(crate) order: Vec<u32>,
    pub(crate) places: Vec<usize>,
}

// The order in which the assignments are looked at, and their places in it. They stand by the class of the target,
// then by how many variables they name, then by number.
pub(crate) fn scheduled(
    alloc: Global,
    parts: &GtsParts,
    blocks: &[Block],
    readers: &[(VarId, AssignId)],
) -> Result<Schedule, Memory>
    requires { IsSound parts.now }
    ensures { IfOk result (λ made. IsSchedule parts.now made.order.items made.places.items) }
{
    let count = parts.assigns.len();
    let widths = widths(alloc, count, readers)?;
    let ranks = ranks(alloc, parts, blocks)?;
    let mut order = numbers_below(alloc, count)?;
    order.sort_by_key(|n| (place_of(&ranks, *n), place_of(&widths, *n)))?;
    let places = places_in(alloc, &order, count)?;
    Ok(Schedule { order, places })
}

// The place of each number below the count in an order of them.
fn places_in(alloc: Global, order: &[u32], count: usize) -> Result<Vec<usize>, Memory>
    requires { IsNumberOrder count order.now }
    ensures long { IfOk result (λ places. length places.items ≡ count) }
    ensures placed { IfOk result (λ places. (n p : ℕ) → Stands places.items n p
        → Stands order.now p n) }
{
    let mut places = vec![in alloc; 0usize; count]?;
    for (place, n) in order.iter().enumerate() {
        places[*n as usize] = place;
    }
    Ok(places)
}

// How many variables each assignment names.
fn widths(
    alloc: Global,
    count: usize,
    readers: &[(VarId, AssignId)],
) -> Result<Vec<usize>, Memory> {
    let mut widths = vec![in alloc; 0usize; count]?;
    for (_, assign) in readers {
        if let Some(width) = widths.get_mut(assign.n as usize) {
            *width = width.saturating_add(1);
        }
    }
    Ok(widths)
}

// The place of this number.
fn place_of(places: &[usize], n: u32) -> usize {
    places.get(n as usize).copied().unwrap_or(0)
}

// The place of the class of each assignment's target.
fn ranks(alloc: Global, parts: &GtsParts, blocks: &[Block]) -> Result<Vec<usize>, Memory> {
    let places = class_places(alloc, &parts.variables, blocks)?;
    let mut ranks = Vec::new(alloc);
    for assign in &parts.assigns {
        ranks.push(place_of(&places, assign.target.n))?;
    }
    Ok(ranks)
}

// The place of each flow's class, by variable; 0 for a state variable.
fn class_places(
    alloc: Global,
    variables: &[Variable],
    blocks: &[Block],
) -> Result<Vec<usize>, Memory> {
    let flows = flow_numbers(alloc, variables)?;
    let mut places = vec![in alloc; 0usize; variables.len()]?;
    for (place, block) in blocks.iter().enumerate() {
        place_all(&mut places, &flows, &block.members, place);
    }
    Ok(places)
}

// The numbers of the flows among the variables.
fn flow_numbers(alloc: Global, variables: &[Variable]) -> Result<Vec<usize>, Memory> {
    let mut flows = Vec::new(alloc);
    for (place, variable) in variables.iter().enumerate() {
        if !variable.is_state {
            flows.push(place)?;
        }
    }
    Ok(flows)
}

// Gives the flows of a class its place.
fn place_all(places: &mut [usize], flows: &[usize], members: &[u32], class: usize) {
    for member in members {
        if let Some(flow) = flows.get(*member as usize) {
            if let Some(place) = places.get_mut(*flow) {
                *place = class;
            }
        }
    }
}
