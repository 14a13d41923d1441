//! The edges of a tree of modes in order.

ghost use Rattle.std.specs.Prelude.{◌≡◌, ◌≤◌, ◌^◌, ◌∷◌, length, map, IfOk};
ghost use Rattle.ar_base.specs.Lists.{AreDifferent};
ghost use Rattle.ar_meaning.specs.Found.{IsAnswer};
ghost use Rattle.mode_trees.specs.declared.forests.Edge.{Edge};
ghost use Rattle.mode_trees.specs.Below.{AreEdgesBelow};
ghost use Rattle.mode_trees.specs.Paths.{IsOffPath, LeavesMode, IsNextOrNone, earlier_of, GetsBelow};

use crate::Edge;
use ar_base::Memory;
use domains::Value;
use std::alloc::Global;

/// The edges of this list below the first mode, each before those below the mode that it enters, those that leave
/// one mode by their events' numbers. The error is want of memory.
pub fn edges_below(alloc: Global, first: Value, edges: &[Edge]) -> Result<Vec<Edge>, Memory>
    requires enters { AreDifferent (first ∷ map (λ (e : Edge). e.to) edges.now) }
    ensures { IfOk result (λ below. AreEdgesBelow edges.now first 0 below.items) }
{
    let mut below = Vec::new(alloc);
    add_below(edges, first, 0, edges.len(), &mut below)?;
    Ok(below)
}

// Adds the edges below a mode by events from number `low` on. The room is the number of edges that are not on the
// path to the mode.
fn add_below(
    edges: &[Edge],
    mode: Value,
    low: u64,
    room: usize,
    below: &mut Vec<Edge>,
) -> Result<(), Memory>
    requires low { low ≤ 2 ^ 32 }
    requires within { IsOffPath edges.now mode room }
    ensures { IfOk result (λ _. GetsBelow edges.now mode low below.old.items below.new.items) }
{
    let edge = match next_edge(edges, mode, low) {
        Some(edge) => edge,
        None => return Ok(()),
    };
    below.push(edge)?;
    add_below(edges, edge.to, 0, room - 1, below)?;
    add_below(edges, mode, edge.event.n as u64 + 1, room, below)
}

// The edge of the least event from number `low` on among those that leave a mode.
fn next_edge(edges: &[Edge], from: Value, low: u64) -> Option<Edge>
    ensures { IsNextOrNone edges.now (length edges.now) from low result }
{
    let mut found = None;
    for edge in edges {
        if leaves(*edge, from, low) {
            found = Some(earlier(found, *edge));
        }
    }
    found
}

// Whether the edge leaves this mode by an event from number `low` on.
fn leaves(edge: Edge, from: Value, low: u64) -> bool
    ensures { IsAnswer result (LeavesMode from low edge) }
{
    edge.from == from && low <= edge.event.n as u64
}

// The edge, unless the event of the one that was found is no greater.
fn earlier(found: Option<Edge>, edge: Edge) -> Edge
    ensures { result ≡ earlier_of found edge }
{
    match found {
        Some(other) => if edge.event.n < other.event.n {
            edge
        } else {
            other
        },
        None => edge,
    }
}
