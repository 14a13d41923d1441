//! The modes of trees by number.

ghost use Rattle.std.specs.Prelude.{◌≡◌, ◌≤◌, IfOk, IfNone, IfSome, length, map};
ghost use Rattle.std.specs.List.{All};
ghost use Rattle.ar_firing.specs.Trees.{IsTree, AreTrees};
ghost use Rattle.mode_trees.specs.Views.{tree_of};
ghost use Rattle.mode_diagrams.specs.Numbers.{AreNumberedTrees, HasFewEdges, HasWideTree, IsWideTree, IsNumberOf, IsModeNumber, IsEnteredBefore};

use ar_base::Memory;
use diagram_steps::{NumberedEdge, NumberedTree};
use domains::Value;
use mode_trees::ModeTree;
use std::alloc::Global;

// The most edges of a tree that is numbered: each mode is looked for among those before.
const MOST_EDGES: usize = 64;

/// The trees that have an edge, with their modes by number; None exactly where a tree has more than 64 edges.
pub fn numbered(alloc: Global, trees: &[ModeTree]) -> Result<Option<Vec<NumberedTree>>, Memory>
    requires trees { AreTrees (map (tree_of (λ n. n)) trees.now) }
    ensures numbers { IfOk result (λ made. IfSome made
        (λ ns. AreNumberedTrees (map (tree_of (λ n. n)) trees.now) ns.items)) }
    ensures few { IfOk result (λ made. IfSome made (λ ns. All HasFewEdges ns.items)) }
    ensures none { IfOk result (λ made. IfNone made
        (HasWideTree (map (tree_of (λ n. n)) trees.now))) }
    ensures some { IfOk result (λ made. IfSome made
        (λ _. HasWideTree (map (tree_of (λ n. n)) trees.now) → ⊥)) }
{
    let mut made = Vec::new(alloc);
    for tree in trees {
        if !tree.edges.is_empty() {
            let Some(next) = numbered_tree(alloc, tree)? else {
                return Ok(None);
            };
            made.push(next)?;
        }
    }
    Ok(Some(made))
}

// One tree with its modes by number; None where it has more than 64 edges.
fn numbered_tree(alloc: Global, tree: &ModeTree) -> Result<Option<NumberedTree>, Memory>
    requires tree { IsTree (tree_of (λ n. n) tree.now) }
    ensures number { IfOk result (λ made. IfSome made
        (λ n. IsNumberOf (tree_of (λ n. n) tree.now) n)) }
    ensures few { IfOk result (λ made. IfSome made (λ n. HasFewEdges n)) }
    ensures none { IfOk result (λ made. IfNone made (IsWideTree (tree_of (λ n. n) tree.now))) }
{
    if tree.edges.len() > MOST_EDGES {
        return Ok(None);
    }
    let mut edges = Vec::new(alloc);
    for place in 0..tree.edges.len() {
        let edge = tree.edges[place];
        let from = mode_number(tree, place, edge.from);
        edges.push(NumberedEdge {
            event: edge.event,
            from,
        })?;
    }
    Ok(Some(NumberedTree { edges }))
}

// The number of a mode that is the first or that one of the first so many edges enters.
fn mode_number(tree: &ModeTree, place: usize, mode: Value) -> u32
    requires place { place ≤ length tree.now.edges.items }
    requires few { place ≤ 64 }
    requires known { IsEnteredBefore (tree_of (λ n. n) tree.now) place mode }
    ensures { IsModeNumber (tree_of (λ n. n) tree.now) place mode result }
{
    if tree.first == mode {
        return 0;
    }
    for k in 0..place {
        if tree.edges[k].to == mode {
            return k as u32 + 1;
        }
    }
    unreachable!()
}
