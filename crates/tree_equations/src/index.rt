//! What is looked up in a system: its flows, and the assignments to each variable.

ghost use Rattle.std.specs.Prelude.{◌≡◌, ◌<◌, ◌^◌, ℕ, List, [], IfOk, length, map};
ghost use Rattle.ar_base.specs.Lists.{IsOneOf};
ghost use Rattle.gts_core.specs.Sound.{IsSound};
ghost use Rattle.gts_core.specs.View.{variables_from};
ghost use Rattle.flow_blocks.specs.Bits.{row_of};
ghost use Rattle.flow_blocks.specs.Table.{members_of};
ghost use Rattle.eq_build.specs.Steps.{flows_from};
ghost use Rattle.tree_equations.specs.Index.{IsIndex, AreByTarget, AreFlows, AreUnder};
ghost use Rattle.tree_equations.specs.Blocks.{blocks_in, StandAtPlaces, ArePlacedBlocks};

use ar_base::Memory;
use flow_blocks::Block;
use gts_core::{Assign, GtsParts, Variable};
use std::alloc::Global;

// The flows of a system, and the assignments to each variable.
#[derive(Drop)]
pub(crate) struct Index {
    // The numbers of the flows.
    pub(crate) flows: Vec<u32>,
    // The numbers of the assignments to each variable.
    pub(crate) assigns: Vec<Vec<u32>>,
}

// The index of a system.
pub(crate) fn make_index(alloc: Global, parts: &GtsParts) -> Result<Index, Memory>
    requires { IsSound parts.now }
    ensures { IfOk result (λ index. IsIndex parts.now index) }
{
    let flows = flow_numbers(alloc, &parts.variables)?;
    let assigns = by_target(alloc, parts.variables.len(), &parts.assigns)?;
    Ok(Index { flows, assigns })
}

// The numbers of the flows.
fn flow_numbers(alloc: Global, variables: &[Variable]) -> Result<Vec<u32>, Memory>
    requires { length variables.now < 2 ^ 32 }
    ensures { IfOk result (λ flows. AreFlows variables.now flows.items
        (flows_from 0 (variables_from 0 variables.now))) }
{
    let mut flows = Vec::new(alloc);
    for (n, variable) in variables.iter().enumerate() {
        if !variable.is_state {
            flows.push(n as u32)?;
        }
    }
    Ok(flows)
}

// The numbers of the assignments to each of so many variables.
fn by_target(alloc: Global, count: usize, assigns: &[Assign]) -> Result<Vec<Vec<u32>>, Memory>
    requires short { length assigns.now < 2 ^ 32 }
    requires under { (a : Assign) → IsOneOf assigns.now a → a.target.n < count }
    ensures { IfOk result (λ rows. AreByTarget count assigns.now assigns.now rows.items) }
{
    let mut rows = no_numbers(alloc, count)?;
    for (k, assign) in assigns.iter().enumerate() {
        rows[assign.target.n as usize].push(k as u32)?;
    }
    Ok(rows)
}

// So many empty lists.
fn no_numbers(alloc: Global, count: usize) -> Result<Vec<Vec<u32>>, Memory>
    ensures long { IfOk result (λ rows. length rows.items ≡ count) }
    ensures none { IfOk result (λ rows. (n : ℕ) → row_of rows.items n ≡ []) }
{
    let mut rows = Vec::new(alloc);
    for _ in 0..count {
        let none = Vec::new(alloc);
        rows.push(none)?;
    }
    Ok(rows)
}

// The numbers of the flows of each block.
pub(crate) fn numbered_blocks(
    alloc: Global,
    flows: &[u32],
    blocks: &[Block],
) -> Result<Vec<Vec<u32>>, Memory>
    requires { (members : List ℕ) → IsOneOf (members_of blocks.now) members
        → AreUnder (length flows.now) members }
    ensures { IfOk result (λ found. ArePlacedBlocks flows.now (members_of blocks.now)
        (blocks_in found.items)) }
{
    let mut found = Vec::new(alloc);
    for block in blocks {
        let numbers = numbers_at(alloc, flows, &block.members)?;
        found.push(numbers)?;
    }
    Ok(found)
}

// The numbers at these places.
fn numbers_at(alloc: Global, flows: &[u32], places: &[u32]) -> Result<Vec<u32>, Memory>
    requires { AreUnder (length flows.now) places.now }
    ensures { IfOk result (λ found. StandAtPlaces flows.now places.now found.items) }
{
    let mut numbers = Vec::new(alloc);
    for place in places {
        numbers.push(flows[*place as usize])?;
    }
    Ok(numbers)
}
