//! What the walk through the firable sets has met.

ghost use Rattle.std.specs.Prelude.{◌≡◌, ◌⊎◌, IfSome, MatchResult, []};
ghost use Rattle.gate_diagrams.specs.declared.walked.State.{State as Key};
ghost use Rattle.zdd_nodes.specs.Nodes.{NodeId as IdOfNode};
ghost use Rattle.gate_diagrams.specs.Walked.{IsHeld};

use std::alloc::Global;
use std::collections::HashMap;
use std::marker::Model;
use zdd_nodes::{NodeFault, NodeId};

/// A state of the walk.
#[derive(PartialEq, Eq, Hash, Drop)]
pub(crate) struct State {
    /// The numbers of what is left of every tree.
    pub(crate) left: Vec<NodeId>,
    /// At most how many events are left to take; None where all are.
    pub(crate) order: Option<u32>,
}

/// States of the walk with the numbers of their families.
#[derive(Drop)]
pub(crate) struct Walked {
    numbers: HashMap<State, NodeId>,
}

impl Model for Walked {
    ghost use Rattle.std.specs.Prelude.{List};
    ghost use Rattle.zdd_nodes.specs.Nodes.{NodeId as IdOfNode};
    ghost use Rattle.gate_diagrams.specs.declared.walked.State.{State as Key};

    ghost Value = { List (Key × IdOfNode) };

    ghost view = { λ w. w.numbers.entries };
}

impl Walked {
    /// No states. Takes no memory.
    pub(crate) fn new(alloc: Global) -> Walked
        ensures { result ≡ [] }
    {
        Walked {
            numbers: HashMap::new(alloc),
        }
    }

    /// The number of the state's family, where it is held. Takes no memory.
    pub(crate) fn recall(&self, state: &State) -> Option<NodeId>
        ensures { IfSome result (λ n. IsHeld self.now state.now n) }
    {
        self.numbers.get(state).copied()
    }

    /// Holds one more state, and hands its number on. Where memory is refused the answer is Memory: without the state
    /// the walk would go on from it again, each time that it comes there.
    pub(crate) fn remember(&mut self, state: State, number: NodeId) -> Result<NodeId, NodeFault>
        ensures held { (q : Key) (n : IdOfNode) → IsHeld self.new q n → IsHeld self.old q n
            ⊎ ((q.left.items ≡ state.left.items) × (q.order ≡ state.order) × (n ≡ number)) }
        ensures number { MatchResult result (λ n. n ≡ number) (λ e. e ≡ NodeFault.Memory) }
    {
        if self.numbers.insert(state, number).is_err() {
            return Err(NodeFault::Memory);
        }
        Ok(number)
    }
}
