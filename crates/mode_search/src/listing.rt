//! The live edges in a row.

ghost use Rattle.std.specs.Prelude.{◌≡◌, ◌<◌, ◌++◌, ◌^◌, length, map, IfOk};
ghost use Rattle.mode_search.specs.Live.{AreEdgesApart, AreLive, live_at};

use crate::Reach;
use ar_base::{Memory, VarId};
use mode_trees::Edge;
use std::alloc::Global;

/// A live edge of a variable.
#[derive(Clone, Copy)]
pub struct Live {
    /// The variable.
    pub variable: VarId,
    /// The edge.
    pub edge: Edge,
}

/// The edges of what the variables reach, by variable. The error is want of memory.
pub fn live_edges(alloc: Global, reaches: &[Reach]) -> Result<Vec<Live>, Memory>
    requires short { length reaches.now < 2 ^ 32 }
    requires apart { AreEdgesApart reaches.now }
    ensures { IfOk result (λ live. AreLive reaches.now (length reaches.now) live.items) }
{
    let mut live = Vec::new(alloc);
    for (n, reach) in reaches.iter().enumerate() {
        add_edges(VarId::new(n as u32), &reach.edges, &mut live)?;
    }
    Ok(live)
}

// Adds these edges of a variable.
fn add_edges(variable: VarId, edges: &[Edge], live: &mut Vec<Live>) -> Result<(), Memory>
    ensures { IfOk result (λ _. live.new.items ≡ live.old.items
        ++ map (live_at variable) edges.now) }
{
    for edge in edges {
        live.push(Live {
            variable,
            edge: *edge,
        })?;
    }
    Ok(())
}
