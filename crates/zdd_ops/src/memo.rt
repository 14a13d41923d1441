//! What operations gave.

ghost use Rattle.std.specs.Prelude.{◌≡◌, ◌≤◌, [], length, MatchResult};
ghost use Rattle.std.specs.Map.{lookup};
ghost use Rattle.zdd_ops.specs.Operations.{operation_eq, RemembersResult};

use ar_base::EventId;
use std::alloc::Global;
use std::collections::HashMap;
use std::marker::Model;
use zdd_nodes::{NodeFault, NodeId};

/// An operation that goes set by set.
#[derive(Clone, Copy, PartialEq, Eq, Hash)]
pub enum Join {
    /// The sets of either.
    Union,
    /// The sets of both.
    Meet,
    /// The sets of the first that the second lacks.
    Minus,
}

/// An operation with its operands.
#[derive(Clone, Copy, PartialEq, Eq, Hash)]
pub enum Operation {
    /// The join of two families.
    Joined(Join, NodeId, NodeId),
    /// The sets of the first that contain no set of the second.
    Without(NodeId, NodeId),
    /// The sets with the event.
    Having(NodeId, EventId),
    /// The sets without a proper subset in the family.
    Minimal(NodeId),
}

/// How many results are held at most.
const MOST_RESULTS: usize = 4_194_304;

/// Results of operations, at most 4,194,304 of them, seen as the list of operations and results.
#[derive(Drop)]
pub struct Memo {
    results: HashMap<Operation, NodeId>,
}

impl Model for Memo {
    ghost use Rattle.std.specs.Prelude.{List, length, ◌≤◌};
    ghost use Rattle.zdd_nodes.specs.Nodes.{NodeId as IdOfNode};
    ghost use Rattle.zdd_ops.specs.declared.memo.Operation.{Operation as Key};

    ghost Value = { List (Key × IdOfNode) };

    ghost view = { λ m. m.results.entries };

    ghost invariant = { λ m. length m.results.entries ≤ 4194304 };
}

impl Memo {
    /// No results. Takes no memory.
    pub fn new(alloc: Global) -> Memo
        ensures { result ≡ [] }
    {
        Memo {
            results: HashMap::new(alloc),
        }
    }

    /// The result of an operation, where it is held. Takes no memory.
    pub fn recall(&self, operation: Operation) -> Option<NodeId>
        ensures { result ≡ lookup (operation_eq operation) self.now }
    {
        self.results.get(&operation).copied()
    }

    /// Holds one more result, and hands it on. Where there would be more than 4,194,304, all others are let go first.
    /// Where memory is refused the answer is Memory: without the result the work would be done again, and again on
    /// each way to it.
    pub fn remember(&mut self, operation: Operation, number: NodeId) -> Result<NodeId, NodeFault>
        ensures entry { RemembersResult operation number self.old self.new }
        ensures bound { length self.new ≤ 4194304 }
        ensures number { MatchResult result (λ n. n ≡ number) (λ e. e ≡ NodeFault.Memory) }
    {
        if self.results.len() >= MOST_RESULTS {
            self.results.clear();
        }
        if self.results.insert(operation, number).is_err() {
            return Err(NodeFault::Memory);
        }
        Ok(number)
    }
}
