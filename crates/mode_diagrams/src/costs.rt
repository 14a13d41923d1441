//! What the modes of trees cost, and stores of diagrams that are right at the sets of at most so many events.

ghost use Rattle.std.specs.Prelude.{◌≡◌, ◌≤◌, IfOk, [], length};
ghost use Rattle.std.specs.List.{All};
ghost use Rattle.diagram_steps.specs.Trees.{edges_of};
ghost use Rattle.mode_nodes.specs.Diagrams.{IsSoundDiagramStore};
ghost use Rattle.mode_nodes.specs.Bounds.{costs_of};
ghost use Rattle.mode_diagrams.specs.Trees.{AreNumbered, AreApart, IsNumberedTree};
ghost use Rattle.mode_diagrams.specs.Numbers.{HasFewEdges};
ghost use Rattle.mode_diagrams.specs.Costs.{HasDifferentEvents, HaveDifferentEvents, AreModeCosts, AreCostsOf, IsEnoughFor};

use ar_base::Memory;
use diagram_steps::NumberedTree;
use mode_nodes::Diagrams;
use std::alloc::Global;

/// An empty store of diagrams, of at most `limit` nodes, that are right at the sets of at most so many events; where no
/// number is given, at all sets. Without a number it takes no memory.
pub fn diagrams_up_to(
    alloc: Global,
    trees: &[NumberedTree],
    order: Option<u32>,
    limit: u32,
) -> Result<Diagrams, Memory>
    requires limit { limit ≤ 16777216 }
    requires numbered { AreNumbered trees.now }
    requires apart { AreApart trees.now }
    requires different { HaveDifferentEvents trees.now }
    requires few { All HasFewEdges trees.now }
    ensures enough { IfOk result (λ d. IsEnoughFor order trees.now d) }
    ensures empty { IfOk result (λ d. d.store.nodes ≡ []) }
    ensures limit { IfOk result (λ d. d.store.limit ≡ limit) }
    ensures sound { IfOk result (λ d. IsSoundDiagramStore d.store) }
{
    match order {
        None => Ok(Diagrams::new(alloc, limit, Vec::new(alloc), 0)),
        Some(most) => {
            let costs = costs(alloc, trees)?;
            Ok(Diagrams::new(alloc, limit, costs, most))
        }
    }
}

/// What each mode of each tree costs: as many events as are on the path to it.
fn costs(alloc: Global, trees: &[NumberedTree]) -> Result<Vec<Vec<u32>>, Memory>
    requires numbered { AreNumbered trees.now }
    requires different { HaveDifferentEvents trees.now }
    requires few { All HasFewEdges trees.now }
    ensures { IfOk result (λ v. AreCostsOf trees.now (length trees.now) (costs_of v.items)) }
{
    let mut costs = Vec::new(alloc);
    for place in 0..trees.len() {
        costs.push(tree_costs(alloc, &trees[place])?)?;
    }
    Ok(costs)
}

// What each mode of a tree costs.
fn tree_costs(alloc: Global, tree: &NumberedTree) -> Result<Vec<u32>, Memory>
    requires numbered { IsNumberedTree tree.now }
    requires different { HasDifferentEvents tree.now }
    requires few { length (edges_of tree.now) ≤ 64 }
    ensures { IfOk result
        (λ v. AreModeCosts (edges_of tree.now) (length (edges_of tree.now)) v.items) }
{
    let mut costs = Vec::new(alloc);
    costs.push(0)?;
    for place in 0..tree.edges.len() {
        let edge = tree.edges[place];
        let before = costs[edge.from as usize];
        costs.push(before + 1)?;
    }
    Ok(costs)
}
