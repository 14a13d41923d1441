//! Diagrams at the modes that cost no more than there is.

ghost use Rattle.std.specs.Prelude.{◌≡◌, ◌-◌, ◌<◌, ◌≤◌, ◌⊎◌, ◌+◌, MatchOption, OnErr};
ghost use Rattle.mode_nodes.specs.Diagrams.{test, IsDiagramNumber, IsFrom, IsSoundDiagramStore};
ghost use Rattle.mode_nodes.specs.Bounds.{costs_of, cost, IsTrimmed, IsCutWithin, DrawsWithin};

use crate::cut::{Cut, cut_at, taken};
use crate::store::{DiagramFault, DiagramId, Store};

/// What a tree's mode costs: 0 where the table has nothing of it.
pub fn cost_of(costs: &[Vec<u32>], tree: u32, mode: u32) -> u32
    ensures { result ≡ cost (costs_of costs.now) tree mode }
{
    if tree as usize >= costs.len() {
        return 0;
    }
    let modes = costs[tree as usize].as_slice();
    if mode as usize >= modes.len() {
        return 0;
    }
    modes[mode as usize]
}

/// How much is left where a tree is at a mode.
pub fn left_of(costs: &[Vec<u32>], most: u32, tree: u32, mode: u32) -> u32
    ensures { result ≡ most - cost (costs_of costs.now) tree mode }
{
    most.saturating_sub(cost_of(costs, tree, mode))
}

/// What is left of a node where its mode costs too much. None where it does not.
fn next_trimmed(
    store: &Store,
    costs: &[Vec<u32>],
    most: u32,
    diagram: DiagramId,
) -> Option<DiagramId>
    requires { IsDiagramNumber store.now diagram.n }
    ensures step { MatchOption result Unit
        (λ r. IsTrimmed (costs_of costs.now) most store.now diagram.n r.n) }
    ensures less { MatchOption result Unit (λ r. r.n < diagram.n) }
{
    let node = store.split(diagram)?;
    if cost_of(costs, node.tree, node.mode) <= most {
        return None;
    }
    Some(node.lo)
}

/// What is left of a diagram where it does not ask first for a mode that costs too much.
fn trimmed(store: &Store, costs: &[Vec<u32>], most: u32, diagram: DiagramId) -> DiagramId
    requires { IsDiagramNumber store.now diagram.n }
    ensures { IsTrimmed (costs_of costs.now) most store.now diagram.n result.n }
{
    let mut left = diagram;
    while let Some(next) = next_trimmed(store, costs, most, left) {
        left = next;
    }
    left
}

/// Cuts two diagrams, of which one at least is a node, at the first place that they ask for; what is left asks first for no
/// mode that costs too much.
pub fn cut_within(store: &Store, costs: &[Vec<u32>], most: u32, f: DiagramId, g: DiagramId) -> Cut
    requires f_in { IsDiagramNumber store.now f.n }
    requires g_in { IsDiagramNumber store.now g.n }
    requires some { (2 ≤ f.n) ⊎ (2 ≤ g.n) }
    ensures cut { IsCutWithin (costs_of costs.now) most store.now f.n g.n result }
{
    let cut = cut_at(store, f, g);
    let left = left_of(costs, most, cut.tree, cut.mode);
    let f0 = trimmed(store, costs, most, cut.f0);
    let f1 = trimmed(store, costs, left, cut.f1);
    let g0 = trimmed(store, costs, most, cut.g0);
    let g1 = trimmed(store, costs, left, cut.g1);
    Cut {
        tree: cut.tree,
        mode: cut.mode,
        f0,
        f1,
        g0,
        g1,
    }
}

/// The diagram that is `hi` where the tree is at the mode and `lo` where it is not, at the modes that cost at most so much: `lo`
/// itself where it is `hi` there as far as what is left goes.
pub fn test_within(
    store: &mut Store,
    costs: &[Vec<u32>],
    most: u32,
    tree: u32,
    mode: u32,
    lo: DiagramId,
    hi: DiagramId,
) -> Result<DiagramId, DiagramFault>
    requires lo_in { IsDiagramNumber store.old lo.n }
    requires hi_in { IsDiagramNumber store.old hi.n }
    requires lo_from { IsFrom store.old.nodes tree lo.n }
    requires hi_from { IsFrom store.old.nodes (tree + 1) hi.n }
    requires sound { IsSoundDiagramStore store.old }
    ensures drawn { DrawsWithin (costs_of costs.now) most (test store.old tree mode lo.n hi.n)
        (λ t. t ≤ tree) store.old store.new result }
    ensures err { OnErr result (store.new ≡ store.old) }
    ensures sound { IsSoundDiagramStore store.new }
{
    let left = left_of(costs, most, tree, mode);
    let rest = taken(store, lo, tree, mode);
    let same = trimmed(store, costs, left, rest);
    if same.n == hi.n {
        return Ok(lo);
    }
    store.node(tree, mode, lo, hi)
}
