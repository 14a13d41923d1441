//! The classes of a graph, in order.

ghost use Rattle.std.specs.Prelude.{[], map, IfOk};
ghost use Rattle.flow_blocks.specs.Blocks.{Follow};
ghost use Rattle.flow_blocks.specs.BlocksInside.{AreUsesBelow};

use crate::classing::classes;
use crate::closing::{close, direct_rows};
use crate::dependences::{Block, Graph};
use crate::giving::in_order;
use crate::schedule::schedule;
use ar_base::Memory;
use std::alloc::Global;

/// The classes of mutual dependence. Two numbers are in one class where they are equal or each
/// depends on the other, directly or through others. A class comes after every class on which it
/// depends, and of those that may come the one with the least member is next.
pub fn blocks(alloc: Global, graph: &Graph) -> Result<Vec<Block>, Memory>
    requires { AreUsesBelow graph.now.count graph.now.uses.items }
    ensures { IfOk result (λ found. Follow graph.now.count graph.now.uses.items []
        (map (λ b. b.members.items) found.items)) }
{
    let places = schedule(alloc, graph.count, &graph.uses)?;
    let mut rows = direct_rows(alloc, graph.count, &graph.uses)?;
    close(alloc, graph.count, &mut rows, &graph.uses, &places);
    let found = classes(alloc, graph.count, &rows)?;
    in_order(alloc, graph.count, &graph.uses, &found)
}
