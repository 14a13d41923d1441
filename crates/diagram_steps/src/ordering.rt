//! Trees in the order of their events.

ghost use Rattle.std.specs.Prelude.{◌≡◌, ◌≤◌, ◌<◌, ℕ, IfOk, IfSome, None, true, false};
ghost use Rattle.std.specs.List.Sorted.{IsPermutation};
ghost use Rattle.diagram_steps.specs.Trees.{edges_of, TreeHasEvent};
ghost use Rattle.diagram_steps.specs.Order.{Ascend, AreSeparate, HasOverlap, HasEventBelow, IsTreeEnd};
ghost use Rattle.diagram_steps.specs.Order.{least_event as least};

use crate::trees::NumberedTree;
use ar_base::Memory;

/// The trees in the order of their events, so that those of each tree are all below those of the trees after it. None
/// where they have no such order: the events of two of them stand in turn.
pub fn in_order(mut trees: Vec<NumberedTree>) -> Result<Option<Vec<NumberedTree>>, Memory>
    ensures same { IfOk result (λ found. IfSome found
        (λ ns. IsPermutation trees.items ns.items)) }
    ensures ascend { IfOk result (λ found. IfSome found (λ ns. Ascend ns.items)) }
    ensures none { IfOk result (λ found. found ≡ None → AreSeparate trees.items → ⊥) }
{
    trees.sort_by_key(|tree| least_event(tree))?;
    if ascend(&trees) {
        Ok(Some(trees))
    } else {
        Ok(None)
    }
}

// The least event of the tree, or 0 where it has none.
fn least_event(tree: &NumberedTree) -> u32
    ensures { result ≡ least (edges_of tree.now) }
{
    let Some(first) = tree.edges.first() else {
        return 0;
    };
    let mut least = first.event.n;
    for edge in &tree.edges {
        if edge.event.n < least {
            least = edge.event.n;
        }
    }
    least
}

// Whether all events of each tree are below those of the trees after it.
fn ascend(trees: &[NumberedTree]) -> bool
    ensures yes { result ≡ true → Ascend trees.now }
    ensures no { result ≡ false → HasOverlap trees.now }
{
    let mut end = 0;
    for tree in trees {
        if has_below(tree, end) {
            return false;
        }
        end = end_of(tree, end);
    }
    true
}

// Whether the tree has an event below this number.
fn has_below(tree: &NumberedTree, end: u64) -> bool
    ensures yes { result ≡ true → HasEventBelow tree.now end }
    ensures no { result ≡ false → (e : ℕ) → TreeHasEvent tree.now e → end ≤ e }
{
    for edge in &tree.edges {
        if u64::from(edge.event.n) < end {
            return true;
        }
    }
    false
}

// One more than the greatest of the tree's events, unless that is below `start`; else `start`.
fn end_of(tree: &NumberedTree, start: u64) -> u64
    requires { start ≤ 4294967296 }
    ensures range { result ≤ 4294967296 }
    ensures end { IsTreeEnd tree.now start result }
{
    let mut end = start;
    for edge in &tree.edges {
        let event = u64::from(edge.event.n);
        if event >= end {
            end = event + 1;
        }
    }
    end
}
