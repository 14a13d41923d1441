//! The plan of a system's flows.

ghost use Rattle.std.specs.Prelude.{map, IfOk};
ghost use Rattle.gts_core.specs.Sound.{IsSound};
ghost use Rattle.flow_propagate.specs.Plan.{AreFlowClasses, AreReaders, IsPlan};

use crate::dependence::{dependences, flow_places};
use crate::pairs::Runs;
use crate::readers::{givers, in_runs, readers};
use crate::schedule::{Schedule, scheduled};
use ar_base::Memory;
use flow_blocks::{Block, blocks};
use gts_core::{Gts, GtsParts};
use std::alloc::Global;

/// How the flows of a system depend on each other, which assignments read and give which variable, and in which order the
/// assignments are looked at.
///
/// A flow depends on another where an assignment to it names the other in its value or in a condition.
#[derive(Drop)]
pub struct Plan {
    /// The classes of the flows by dependence, each after those on which it depends. A flow stands here by how many flows
    /// are declared before it.
    pub blocks: Vec<Block>,
    /// The pairs of a variable and an assignment that names it in its value or in a condition, ascending, each once.
    pub readers: Runs,
    /// The pairs of a variable and an assignment to it, ascending, each once.
    pub givers: Runs,
    /// The numbers of the assignments in the order in which they are looked at: by the class of the target, then by how many
    /// variables they name, then by number.
    pub order: Vec<u32>,
    /// The place of each assignment in the order.
    pub places: Vec<usize>,
}

/// The plan of a system. The error is want of memory.
pub fn make_plan(alloc: Global, gts: &Gts) -> Result<Plan, Memory>
    ensures { IfOk result (λ plan. IsPlan gts.now plan) }
{
    let parts = gts.parts();
    let count = parts.variables.len();
    let pairs = readers(alloc, parts)?;
    let blocks = classes(alloc, parts, &pairs)?;
    let readers = in_runs(alloc, &pairs, count)?;
    let given = givers(alloc, parts)?;
    let givers = in_runs(alloc, &given, count)?;
    let Schedule { order, places } = scheduled(alloc, parts, &blocks, &readers.pairs)?;
    Ok(Plan {
        blocks,
        readers,
        givers,
        order,
        places,
    })
}

// The classes of the flows by dependence, in order.
fn classes(alloc: Global, parts: &GtsParts, pairs: &[(u32, u32)]) -> Result<Vec<Block>, Memory>
    requires sound { IsSound parts.now }
    requires readers { AreReaders parts.now pairs.now }
    ensures { IfOk result (λ classes. AreFlowClasses parts.now
        (map (λ b. b.members.items) classes.items)) }
{
    let flows = flow_places(alloc, &parts.variables)?;
    let graph = dependences(alloc, parts, &flows, pairs)?;
    blocks(alloc, &graph)
}
