//! Whether two families have the same sets of events below a bound, each with one family that follows.

ghost use Rattle.std.specs.Prelude.{◌≡◌, ◌<◌, length, true};
ghost use Rattle.zdd_nodes.specs.Nodes.{Stored, IsFamilyNumber};
ghost use Rattle.gate_modules.specs.Walked.{AreTwins, IsAskedPair, AreEnds, SaysWhether, HaveTwinFamilies};
ghost use Rattle.gate_modules.specs.Walked.{AgreesSome};

use zdd_nodes::{NodeId, Store, below, both_end};

/// Two families that were found to agree: the number of the second, and those of what follows.
#[derive(Clone, Copy)]
pub(crate) struct Twin {
    pub(crate) to: u32,
    pub(crate) node: NodeId,
    pub(crate) end: NodeId,
    pub(crate) node_end: NodeId,
}

/// What is asked of two families: the bound, and what follows the events below it, in the first and in the second.
#[derive(Clone, Copy)]
pub(crate) struct Question {
    pub(crate) to: u32,
    pub(crate) end: NodeId,
    pub(crate) node_end: NodeId,
}

/// Whether both families have the same sets of events below the bound, where after each of these the first goes on as
/// asked, and the second too. Takes no memory.
pub(crate) fn agree(
    store: &Store,
    twins: &mut [Twin],
    asked: Question,
    first: NodeId,
    second: NodeId,
) -> bool
    requires first_in { IsFamilyNumber store.now first.n }
    requires second_in { IsFamilyNumber store.now second.n }
    requires room { first.n < length twins.old }
    requires ends { AreEnds store.now asked }
    requires known { AreTwins store.now twins.old }
    ensures is { SaysWhether result (HaveTwinFamilies store.now asked first.n second.n) }
    ensures known { AreTwins store.now twins.new }
    ensures long { length twins.new ≡ length twins.old }
{
    if is_known(twins, asked, first, second) {
        return true;
    }
    match (
        below(store, asked.to, first),
        below(store, asked.to, second),
    ) {
        (Some((event, lo, hi)), Some((other, other_lo, other_hi))) => {
            if event.n != other.n {
                return false;
            }
            if !agree(store, twins, asked, hi, other_hi) {
                return false;
            }
            if !agree(store, twins, asked, lo, other_lo) {
                return false;
            }
            twins[first.n as usize] = Twin {
                to: asked.to,
                node: second,
                end: asked.end,
                node_end: asked.node_end,
            };
            true
        }
        (None, None) => both_end(first, second, asked.end, asked.node_end),
        (Some(_), None) => false,
        (None, Some(_)) => false,
    }
}

// Whether the table tells that the families agree as asked.
fn is_known(twins: &[Twin], asked: Question, first: NodeId, second: NodeId) -> bool
    requires room { first.n < length twins.now }
    ensures { (s : Stored) → AreTwins s twins.now → result ≡ true
        → HaveTwinFamilies s asked first.n second.n }
{
    let known = twins[first.n as usize];
    known.node.n > 0 && is_asked(known, asked, second)
}

// Whether the entry is about this number and what is asked.
fn is_asked(known: Twin, asked: Question, second: NodeId) -> bool
    ensures { result ≡ true → IsAskedPair known asked second.n }
{
    if known.node.n != second.n || known.to != asked.to {
        return false;
    }
    if known.end.n != asked.end.n || known.node_end.n != asked.node_end.n {
        return false;
    }
    true
}

/// The same but for the empty set: whether both families have the same nonempty sets of events below the bound.
pub(crate) fn agree_some(
    store: &Store,
    twins: &mut [Twin],
    asked: Question,
    first: NodeId,
    second: NodeId,
) -> bool
    requires first_in { IsFamilyNumber store.now first.n }
    requires second_in { IsFamilyNumber store.now second.n }
    requires room { first.n < length twins.old }
    requires ends { AreEnds store.now asked }
    requires known { AreTwins store.now twins.old }
    ensures is { SaysWhether result (AgreesSome store.now asked first.n second.n) }
    ensures known { AreTwins store.now twins.new }
    ensures long { length twins.new ≡ length twins.old }
{
    match (
        below(store, asked.to, first),
        below(store, asked.to, second),
    ) {
        (Some((event, lo, hi)), Some((other, other_lo, other_hi))) => {
            if event.n != other.n {
                return false;
            }
            if !agree(store, twins, asked, hi, other_hi) {
                return false;
            }
            agree_some(store, twins, asked, lo, other_lo)
        }
        (None, None) => true,
        (Some(_), None) => false,
        (None, Some(_)) => false,
    }
}
