//! The families of the paths of trees.

ghost use Rattle.std.specs.Prelude.{◌≡◌, ◌+◌, ℕ, List, [], IfOk, OnOk, map};
ghost use Rattle.ar_base.specs.Lists.{Stands};
ghost use Rattle.ar_firing.specs.Forest.{ModeTree as Rows};
ghost use Rattle.ar_firing.specs.Listed.{AreListed};
ghost use Rattle.ar_firing.specs.Trees.{IsTree, AreTrees};
ghost use Rattle.mode_trees.specs.Views.{edge_row, tree_of};
ghost use Rattle.zdd_nodes.specs.Nodes.{family, IsFamilyNumber, IsSoundStore};
ghost use Rattle.firable_families.specs.FirableInside.{IsPathSet};
ghost use Rattle.firable_families.specs.Walk.{AreTreeFamilies};
ghost use Rattle.gate_diagrams.specs.Walked.{families_left, AreNumbers};
ghost use Rattle.gate_diagrams.specs.Paths.{AddsFamilies, IsOneSet, IsWith, IsModeKnown, AreModesTabled};

use crate::modes::{Modes, number_of, put};
use ar_base::EventId;
use mode_trees::{Edge, ModeTree};
use std::alloc::Global;
use std::collections::HashMap;
use zdd_nodes::{NodeFault, NodeId};
use zdd_ops::Ops;

/// For each tree the number of the family of its paths, each the set of its events.
pub(crate) fn forest_paths(
    alloc: Global,
    ops: &mut Ops,
    trees: &[ModeTree],
) -> Result<Vec<NodeId>, NodeFault>
    requires sound { IsSoundStore ops.old }
    requires trees { AreTrees (map (tree_of (λ n. n)) trees.now) }
    ensures sound { OnOk result (IsSoundStore ops.new) }
    ensures in_store { IfOk result (λ paths. AreNumbers ops.new paths.items) }
    ensures listed { IfOk result (λ paths. AreTreeFamilies (map (tree_of (λ n. n)) trees.now)
        (families_left ops.new paths.items)) }
{
    let mut families = Vec::new(alloc);
    for tree in trees {
        let paths = tree_paths(alloc, ops, tree)?;
        families.push(paths)?;
    }
    Ok(families)
}

// The number of the family of a tree's paths: each edge enters its mode with the set of the mode
// that it leaves and its event, and the family has the sets of all modes. A tree without edges, of a
// state variable that never moves, has the empty set alone, and takes no memory.
fn tree_paths(alloc: Global, ops: &mut Ops, tree: &ModeTree) -> Result<NodeId, NodeFault>
    requires sound { IsSoundStore ops.old }
    requires tree { IsTree (tree_of (λ n. n) tree.now) }
    ensures sound { OnOk result (IsSoundStore ops.new) }
    ensures grows { AddsFamilies ops.old ops.new }
    ensures in_store { IfOk result (λ n. IsFamilyNumber ops.new n.n) }
    ensures listed { IfOk result
        (λ n. AreListed (IsPathSet (tree_of (λ n. n) tree.now)) (family ops.new n.n)) }
{
    if tree.edges.is_empty() {
        return Ok(NodeId::new(1));
    }
    let mut modes = HashMap::new(alloc);
    let mut paths = NodeId::new(1);
    put(&mut modes, tree.first, paths)?;
    for edge in &tree.edges {
        paths = one_more(ops, &mut modes, paths, edge)?;
    }
    Ok(paths)
}

// The number of the family with one more set, that of the mode that the edge enters.
fn one_more(
    ops: &mut Ops,
    modes: &mut Modes,
    paths: NodeId,
    edge: &Edge,
) -> Result<NodeId, NodeFault>
    requires sound { IsSoundStore ops.old }
    requires paths_in { IsFamilyNumber ops.old paths.n }
    requires known { IsModeKnown modes.old ops.old edge.now.from }
    ensures sound { OnOk result (IsSoundStore ops.new) }
    ensures grows { AddsFamilies ops.old ops.new }
    ensures tabled { (tree : Rows) (k : ℕ) → IsTree tree
        → Stands tree.edges k (edge_row (λ n. n) edge.now)
        → AreModesTabled tree k modes.old ops.old paths.n
        → IfOk result (λ n. AreModesTabled tree (k + 1) modes.new ops.new n.n) }
{
    let before = number_of(modes, edge.from);
    let set = with_event(ops, before, edge.event)?;
    put(modes, edge.to, set)?;
    ops.union(paths, set)
}

// The number of the family of one set and one more event, where that of the set has a number.
fn with_event(ops: &mut Ops, set: NodeId, event: EventId) -> Result<NodeId, NodeFault>
    requires sound { IsSoundStore ops.old }
    requires one { (s : List ℕ) × IsOneSet ops.old set.n s }
    ensures sound { OnOk result (IsSoundStore ops.new) }
    ensures grows { AddsFamilies ops.old ops.new }
    ensures more { (s : List ℕ) → IsOneSet ops.old set.n s
        → IfOk result (λ n. (more : List ℕ) × IsOneSet ops.new n.n more × IsWith event.n s more) }
{
    let Some((first, _, rest)) = ops.store().split(set) else {
        return ops.node(event, NodeId::new(0), NodeId::new(1));
    };
    if event.n < first.n {
        return ops.node(event, NodeId::new(0), set);
    }
    if event.n == first.n {
        return Ok(set);
    }
    let more = with_event(ops, rest, event)?;
    ops.node(first, NodeId::new(0), more)
}
