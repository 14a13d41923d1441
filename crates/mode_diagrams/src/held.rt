//! The families that were made.

ghost use Rattle.std.specs.Prelude.{◌≡◌, ◌⊎◌, [], MatchResult};
ghost use Rattle.std.specs.Map.{lookup};
ghost use Rattle.mode_diagrams.specs.Kept.{state_eq, Remembers};

use mode_nodes::DiagramId;
use std::alloc::Global;
use std::collections::HashMap;
use std::marker::Model;
use zdd_nodes::{NodeFault, NodeId};

/// The place of a tree, how much is left for it and the later trees, and a diagram that asks for these alone.
#[derive(Clone, Copy, PartialEq, Eq, Hash)]
pub(crate) struct State {
    /// The place of the tree.
    pub(crate) place: u32,
    /// How much the modes may cost from there on.
    pub(crate) most: u32,
    /// The diagram.
    pub(crate) diagram: DiagramId,
}

/// States, each with the number of its family.
#[derive(Drop)]
pub(crate) struct Held {
    numbers: HashMap<State, NodeId>,
}

impl Model for Held {
    ghost use Rattle.std.specs.Prelude.{List};
    ghost use Rattle.zdd_nodes.specs.Nodes.{NodeId as IdOfNode};
    ghost use Rattle.mode_diagrams.specs.declared.held.State.{State as Key};

    ghost Value = { List (Key × IdOfNode) };

    ghost view = { λ h. h.numbers.entries };
}

impl Held {
    /// No states. Takes no memory.
    pub(crate) fn new(alloc: Global) -> Held
        ensures { result ≡ [] }
    {
        Held {
            numbers: HashMap::new(alloc),
        }
    }

    /// The number of the state's family, where it is held. Takes no memory.
    pub(crate) fn recall(&self, state: State) -> Option<NodeId>
        ensures { result ≡ lookup (state_eq state) self.now }
    {
        self.numbers.get(&state).copied()
    }

    /// Holds one more state, and hands its number on. Where memory is refused the answer is Memory.
    pub(crate) fn remember(&mut self, state: State, number: NodeId) -> Result<NodeId, NodeFault>
        ensures entry { Remembers state number self.old self.new }
        ensures number { MatchResult result (λ n. n ≡ number) (λ e. e ≡ NodeFault.Memory) }
    {
        if self.numbers.insert(state, number).is_err() {
            return Err(NodeFault::Memory);
        }
        Ok(number)
    }
}
