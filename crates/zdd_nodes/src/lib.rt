//! Families of sets of events as shared nodes: one node for each family.
//!
//! A number stands for a family: 0 for the empty family, 1 for the family of the empty set, and from 2 on for
//! the nodes in the order in which they were made. A node stands for the sets of its upper half with its event
//! added and for the sets of its lower half, so that it shares the nodes of both.
#![tactic(auto)]

mod bounds;
mod zdd_families;

ghost use Rattle.std.specs.Prelude.{◌≡◌, ◌+◌, ◌<◌, ◌≤◌, ◌↔◌, [], length, IfOk, OnErr, MatchOption};
ghost use Rattle.zdd_nodes.specs.FamiliesInside.{node, IsAbove};
ghost use Rattle.zdd_nodes.specs.SectionsInside.{IsMade};
ghost use Rattle.zdd_nodes.specs.Nodes.{family, IsFamilyNumber, IsNode, IsSoundStore, Draws, HasNoRoom, MakesFamily};
ghost use Rattle.zdd_nodes.specs.Room.{SectionsAreStored, EachTakesANode};

use ar_base::{EventId, Id, Memory};
pub use bounds::{below, both_end, first_with_event};
use std::alloc::{AllocFailed, Global};
use std::collections::HashMap;
use std::marker::Model;
pub use zdd_families::family_laws;

/// The kind of families.
#[derive(Clone, Copy, PartialEq, Eq, Hash)]
pub struct NodeKind {}

/// The number of a family: 0 is the empty family, 1 the family of the empty set, and the others are nodes.
pub type NodeId = Id<NodeKind>;

/// A node: its event, the number of its sets without the event, and that of its sets with the event, which is taken off.
#[derive(Clone, Copy, PartialEq, Eq, Hash)]
struct Node {
    event: EventId,
    lo: NodeId,
    hi: NodeId,
}

/// Why a family got no number.
#[derive(Clone, Copy)]
pub enum NodeFault {
    /// The family needs a new node, and the store has its limit of nodes.
    Full,
    /// Memory was refused.
    Memory,
}

impl From<Memory> for NodeFault {
    ghost use Rattle.std.specs.Prelude.{◌≡◌};
    ghost use Rattle.zdd_nodes.specs.declared.NodeFault.TheVariants as fault;

    ghost from_gives = { λ _ e. e ≡ fault.Memory };

    fn from(_memory: Memory) -> Self {
        NodeFault::Memory
    }
}

impl<T: Drop> From<AllocFailed<T>> for NodeFault {
    ghost use Rattle.std.specs.Prelude.{◌≡◌};
    ghost use Rattle.zdd_nodes.specs.declared.NodeFault.TheVariants as fault;

    ghost from_gives = { λ _ e. e ≡ fault.Memory };

    fn from(_failed: AllocFailed<T>) -> Self {
        NodeFault::Memory
    }
}

/// The nodes that were made, seen as their families in the order of making, and the limit of their number. No two
/// numbers stand for one family.
#[derive(Drop)]
pub struct Store {
    nodes: Vec<Node>,
    index: HashMap<Node, NodeId>,
    limit: u32,
}

impl Model for Store {
    ghost use Rattle.zdd_nodes.specs.Nodes.{Stored};
    ghost use Rattle.zdd_nodes.specs.Kept.{families_of, IsStore};

    ghost Value = { Stored };

    ghost view = { λ s. record { families = families_of s.nodes.items; limit = s.limit } };

    ghost invariant = { λ s. IsStore s.nodes.items s.index.entries s.limit };
}

impl Store {
    /// A store without nodes, which is to hold at most `limit` of them. Takes no memory.
    pub fn new(alloc: Global, limit: u32) -> Store
        requires { limit ≤ 16777216 }
        ensures limit { result.limit ≡ limit }
        ensures families { result.families ≡ [] }
        ensures sound { IsSoundStore result }
    {
        Store {
            nodes: Vec::new(alloc),
            index: HashMap::new(alloc),
            limit,
        }
    }

    /// How many nodes there are; they are numbered from 2 in the order in which they were made. Takes no memory.
    pub fn len(&self) -> u32
        ensures len { result ≡ length self.now.families }
        ensures sound { IsSoundStore self.now }
    {
        self.nodes.len() as u32
    }

    /// The event of a node, its sets without the event, and its sets with the event, which is taken off. None exactly
    /// for 0 and 1. Takes no memory.
    pub fn split(&self, node: NodeId) -> Option<(EventId, NodeId, NodeId)>
        requires { IsFamilyNumber self.now node.n }
        ensures halves { MatchOption result (node.n < 2)
            (λ t. IsNode self.now.families node.n t.0.n t.1.n t.2.n) }
        ensures sound { IsSoundStore self.now }
    {
        let nodes = self.nodes.as_slice();
        if node.n < 2 {
            return None;
        }
        let found = nodes[node.n as usize - 2];
        Some((found.event, found.lo, found.hi))
    }

    /// The number of the family that has the sets of `hi`, each with the event added, and the sets of `lo`. The event is
    /// below all events of both. Where `hi` is 0 it is `lo`. Full comes exactly where the family has no number
    /// and the store has its limit of nodes. After a refusal the store is as it was.
    pub fn node(&mut self, event: EventId, lo: NodeId, hi: NodeId) -> Result<NodeId, NodeFault>
        requires lo_in { IsFamilyNumber self.old lo.n }
        requires hi_in { IsFamilyNumber self.old hi.n }
        requires lo_above { IsAbove event.n (family self.old lo.n) }
        requires hi_above { IsAbove event.n (family self.old hi.n) }
        ensures made { IfOk result (λ n.
            MakesFamily (node event.n (family self.old lo.n) (family self.old hi.n)) self.old self.new
            n.n) }
        ensures full { result ≡ Err NodeFault.Full
            ↔ HasNoRoom (node event.n (family self.old lo.n) (family self.old hi.n)) self.old }
        ensures err { OnErr result (self.new ≡ self.old) }
        ensures lo { hi.n ≡ 0 → result ≡ Ok lo }
        ensures drawn { let made = node event.n (family self.old lo.n) (family self.old hi.n) in
            Draws (IsMade made) made self.old self.new result }
        ensures sound { IsSoundStore self.new }
    {
        let count = self.nodes.len();
        if hi.n == 0 {
            return Ok(lo);
        }
        let made = Node { event, lo, hi };
        if let Some(number) = self.index.get(&made).copied() {
            return Ok(number);
        }
        if count >= self.limit as usize {
            return Err(NodeFault::Full);
        }
        let number = NodeId::new(count as u32 + 2);
        if self.nodes.push(made).is_err() {
            return Err(NodeFault::Memory);
        }
        if self.index.insert(made, number).is_err() {
            let _ = self.nodes.pop();
            return Err(NodeFault::Memory);
        }
        Ok(number)
    }
}

/// Laws of stores of families.
///
/// - `stored_sections`: Each counted section of a stored family is stored.
/// - `room_for_families`: Different families take different nodes.
pub fn store_laws()
    ensures stored_sections { SectionsAreStored }
    ensures room_for_families { EachTakesANode }
{}
