//! What unions and products of least sets gave.

ghost use Rattle.std.specs.Prelude.{◌≡◌, ◌≤◌, [], length, MatchResult};
ghost use Rattle.std.specs.Map.{lookup};
ghost use Rattle.least_families.specs.Held.{is_same_least_operation, RemembersLeast};

use std::alloc::Global;
use std::collections::HashMap;
use std::marker::Model;
use zdd_nodes::{NodeFault, NodeId};

/// An operation with its operands.
#[derive(Clone, Copy, PartialEq, Eq, Hash)]
pub(crate) enum Operation {
    /// The least sets of either family.
    Union(NodeId, NodeId),
    /// The least unions of a set of each family, of at most as many members as are asked for.
    Product(NodeId, NodeId, Option<u32>),
    /// The sets of at most so many members.
    Few(NodeId, u32),
}

/// How many results are held at most.
const MOST_RESULTS: usize = 4_194_304;

/// Results of operations, at most 4,194,304 of them, seen as the list of operations and results.
#[derive(Drop)]
pub struct Memo {
    results: HashMap<Operation, NodeId>,
}

impl Model for Memo {
    ghost use Rattle.std.specs.Prelude.{List, length, ◌≤◌};
    ghost use Rattle.zdd_nodes.specs.Nodes.{NodeId as IdOfNode};
    ghost use Rattle.least_families.specs.declared.memo.Operation.{Operation as Key};

    ghost Value = { List (Key × IdOfNode) };

    ghost view = { λ m. m.results.entries };

    ghost invariant = { λ m. length m.results.entries ≤ 4194304 };
}

impl Memo {
    /// No results. Takes no memory.
    pub fn new(alloc: Global) -> Memo
        ensures { result ≡ [] }
    {
        Memo {
            results: HashMap::new(alloc),
        }
    }

    /// The result of an operation, where it is held. Takes no memory.
    pub(crate) fn recall(&self, operation: Operation) -> Option<NodeId>
        ensures { result ≡ lookup (is_same_least_operation operation) self.now }
    {
        self.results.get(&operation).copied()
    }

    /// Holds one more result, and hands it on. Where there would be more than 4,194,304, all others are let go first.
    /// Where memory is refused the answer is Memory: without the result the work would be done again, and again on
    /// each way to it.
    pub(crate) fn remember(
        &mut self,
        operation: Operation,
        number: NodeId,
    ) -> Result<NodeId, NodeFault>
        ensures entry { RemembersLeast operation number self.old self.new }
        ensures bound { length self.new ≤ 4194304 }
        ensures number { MatchResult result (λ n. n ≡ number) (λ e. e ≡ NodeFault.Memory) }
    {
        if self.results.len() >= MOST_RESULTS {
            self.results.clear();
        }
        if self.results.insert(operation, number).is_err() {
            return Err(NodeFault::Memory);
        }
        Ok(number)
    }
}
