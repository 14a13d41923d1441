//! The way of each event.

ghost use Rattle.std.specs.Prelude.{◌≡◌, ◌<◌, length, IfOk};
ghost use Rattle.ar_base.specs.Lists.{IsOneOf};
ghost use Rattle.mode_trees.specs.declared.forests.Edge.{Edge as TheEdge};
ghost use Rattle.mode_trees.specs.Ways.{OwnTheirWays};
ghost use Rattle.cut_text.specs.Printed.{forest_edges, HaveOneWay};
ghost use Rattle.cut_text.specs.Tables.{HasEdgeWays, with_ways};

use ar_base::{Memory, WayId};
use gts_core::Gts;
use mode_trees::{Edge, Forest};
use std::alloc::Global;

/// For each event that has an edge its way; for another one, some way.
pub fn event_ways(alloc: Global, gts: &Gts, forest: &Forest) -> Result<Vec<WayId>, Memory>
    requires own { OwnTheirWays gts.now forest.now.trees.items }
    requires one_way { HaveOneWay (forest_edges forest.now.trees.items) }
    ensures { IfOk result (λ ways. HasEdgeWays (forest_edges forest.now.trees.items) ways.items) }
{
    let mut ways = vec![in alloc; WayId::new(0); gts.parts().events.len()]?;
    for tree in &forest.trees {
        set_ways(&mut ways, &tree.edges);
    }
    Ok(ways)
}

// Puts the way of each of these edges at the number of its event.
fn set_ways(ways: &mut [WayId], edges: &[Edge])
    requires { (x : TheEdge) → IsOneOf edges.now x → x.event.n < length ways.old }
    ensures { ways.new ≡ with_ways edges.now ways.old }
{
    for edge in edges {
        ways[edge.event.n as usize] = edge.way;
    }
}
