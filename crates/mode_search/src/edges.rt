//! An edge more, and the mode that it enters.

ghost use Rattle.std.specs.Prelude.{IfOk};
ghost use Rattle.mode_search.specs.EdgeAdding.{AddsEdge};

use ar_base::Memory;
use domains::Value;
use mode_trees::Edge;

/// Adds an edge, and the mode that it enters where that is none of the modes yet. Answers whether it was one. The error is
/// want of memory.
pub fn add_edge(edge: Edge, modes: &mut Vec<Value>, edges: &mut Vec<Edge>) -> Result<bool, Memory>
    ensures { IfOk result (λ known. AddsEdge edge modes.old.items edges.old.items known
        modes.new.items edges.new.items) }
{
    edges.push(edge)?;
    if modes.contains(&edge.to) {
        return Ok(true);
    }
    modes.push(edge.to)?;
    Ok(false)
}
