//! The operations, over a store of their own.

ghost use Rattle.std.specs.Prelude.{◌≡◌, ◌≤◌, ◌↔◌, ◌⊎◌, [], IfOk, OnErr};
ghost use Rattle.zdd_nodes.specs.Families.{minimal, without};
ghost use Rattle.zdd_nodes.specs.FamiliesInside.{node, IsAbove, union, meet, minus, having};
ghost use Rattle.zdd_nodes.specs.Sections.{IsCounted, IsPartOfBoth, IsHalf, IsMoreThan};
ghost use Rattle.zdd_nodes.specs.SectionsInside.{IsMade};
ghost use Rattle.zdd_nodes.specs.Nodes.{family, IsFamilyNumber, IsStored, IsSoundStore, Draws, HasNoRoom, MakesFamily};

use crate::halving::{having_in, join_in, minimal_in, without_in};
use crate::memo::{Join, Memo};
use ar_base::EventId;
use std::alloc::Global;
use std::marker::Model;
use zdd_nodes::{NodeFault, NodeId, Store};

/// A store with operations on its families, seen as the store. Every call only adds nodes, so that a number keeps its
/// family, also after a refusal. The store is always a sound one: each call says so.
#[derive(Drop)]
pub struct Ops {
    store: Store,
    memo: Memo,
}

impl Model for Ops {
    ghost use Rattle.zdd_nodes.specs.Nodes.{Stored, IsSoundStore};
    ghost use Rattle.zdd_ops.specs.Operations.{AreResultsHeld};

    ghost Value = { Stored };

    ghost view = { λ o. o.store };

    ghost invariant = { λ o. AreResultsHeld o.memo o.store.families × IsSoundStore o.store };
}

impl Ops {
    /// An empty store, which is to hold at most `limit` nodes. Takes no memory.
    pub fn new(alloc: Global, limit: u32) -> Ops
        requires { limit ≤ 16777216 }
        ensures limit { result.limit ≡ limit }
        ensures families { result.families ≡ [] }
        ensures sound { IsSoundStore result }
    {
        Ops {
            store: Store::new(alloc, limit),
            memo: Memo::new(alloc),
        }
    }

    /// The number of the family that has the sets of `hi`, each with the event added, and the sets of `lo`, as the store
    /// gives it.
    pub fn node(&mut self, event: EventId, lo: NodeId, hi: NodeId) -> Result<NodeId, NodeFault>
        requires lo_in { IsFamilyNumber self.old lo.n }
        requires hi_in { IsFamilyNumber self.old hi.n }
        requires lo_above { IsAbove event.n (family self.old lo.n) }
        requires hi_above { IsAbove event.n (family self.old hi.n) }
        ensures made { IfOk result (λ n.
            MakesFamily (node event.n (family self.old lo.n) (family self.old hi.n)) self.old self.new
            n.n) }
        ensures full { result ≡ Err NodeFault.Full
            ↔ HasNoRoom (node event.n (family self.old lo.n) (family self.old hi.n)) self.old }
        ensures err { OnErr result (self.new ≡ self.old) }
        ensures lo { hi.n ≡ 0 → result ≡ Ok lo }
        ensures drawn { let made = node event.n (family self.old lo.n) (family self.old hi.n) in
            Draws (IsMade made) made self.old self.new result }
        ensures sound { IsSoundStore self.new }
    {
        self.store.node(event, lo, hi)
    }

    /// The sets that are in f or in g. Each node that is added is a counted section of the result; Full comes only where
    /// those and the families stored before are together more than the limit.
    pub fn union(&mut self, f: NodeId, g: NodeId) -> Result<NodeId, NodeFault>
        requires f_in { IsFamilyNumber self.old f.n }
        requires g_in { IsFamilyNumber self.old g.n }
        ensures drawn { let made = union (family self.old f.n) (family self.old g.n) in
            Draws (IsCounted made) made self.old self.new result }
        ensures full { result ≡ Err NodeFault.Full → IsMoreThan self.old.limit
            (λ h. IsStored h self.old ⊎ IsCounted
            (union (family self.old f.n) (family self.old g.n)) h) }
        ensures sound { IsSoundStore self.new }
    {
        join_in(&mut self.store, &mut self.memo, Join::Union, f, g)
    }

    /// The sets that are in both. Each node that is added is a counted section of the result; Full comes only where
    /// those and the families stored before are together more than the limit.
    pub fn meet(&mut self, f: NodeId, g: NodeId) -> Result<NodeId, NodeFault>
        requires f_in { IsFamilyNumber self.old f.n }
        requires g_in { IsFamilyNumber self.old g.n }
        ensures drawn { let made = meet (family self.old f.n) (family self.old g.n) in
            Draws (IsCounted made) made self.old self.new result }
        ensures full { result ≡ Err NodeFault.Full → IsMoreThan self.old.limit
            (λ h. IsStored h self.old ⊎ IsCounted (meet (family self.old f.n) (family self.old g.n))
            h) }
        ensures sound { IsSoundStore self.new }
    {
        join_in(&mut self.store, &mut self.memo, Join::Meet, f, g)
    }

    /// The sets of f that are not in g. Each node that is added is a counted section of the result; Full comes only where
    /// those and the families stored before are together more than the limit.
    pub fn minus(&mut self, f: NodeId, g: NodeId) -> Result<NodeId, NodeFault>
        requires f_in { IsFamilyNumber self.old f.n }
        requires g_in { IsFamilyNumber self.old g.n }
        ensures drawn { let made = minus (family self.old f.n) (family self.old g.n) in
            Draws (IsCounted made) made self.old self.new result }
        ensures full { result ≡ Err NodeFault.Full → IsMoreThan self.old.limit
            (λ h. IsStored h self.old ⊎ IsCounted
            (minus (family self.old f.n) (family self.old g.n)) h) }
        ensures sound { IsSoundStore self.new }
    {
        join_in(&mut self.store, &mut self.memo, Join::Minus, f, g)
    }

    /// The sets of f that contain the event. Each node that is added is a counted section of the result; Full comes only
    /// where those and the families stored before are together more than the limit.
    pub fn having(&mut self, f: NodeId, event: EventId) -> Result<NodeId, NodeFault>
        requires { IsFamilyNumber self.old f.n }
        ensures drawn { let made = having (family self.old f.n) event.n in
            Draws (IsCounted made) made self.old self.new result }
        ensures full { result ≡ Err NodeFault.Full → IsMoreThan self.old.limit
            (λ h. IsStored h self.old ⊎ IsCounted (having (family self.old f.n) event.n) h) }
        ensures sound { IsSoundStore self.new }
    {
        having_in(&mut self.store, &mut self.memo, f, event)
    }

    /// The sets of f without a proper subset in f. Each node that is added is a half of f; Full comes only where the
    /// halves and the families stored before are together more than the limit.
    pub fn minimal(&mut self, f: NodeId) -> Result<NodeId, NodeFault>
        requires { IsFamilyNumber self.old f.n }
        ensures drawn { Draws (IsHalf (family self.old f.n)) (minimal (family self.old f.n))
            self.old self.new result }
        ensures full { result ≡ Err NodeFault.Full → IsMoreThan self.old.limit
            (λ h. IsStored h self.old ⊎ IsHalf (family self.old f.n) h) }
        ensures sound { IsSoundStore self.new }
    {
        minimal_in(&mut self.store, &mut self.memo, f)
    }

    /// The sets of f that contain no set of g. Each node that is added is a part of f and g; Full comes only where the
    /// parts and the families stored before are together more than the limit.
    pub fn without(&mut self, f: NodeId, g: NodeId) -> Result<NodeId, NodeFault>
        requires f_in { IsFamilyNumber self.old f.n }
        requires g_in { IsFamilyNumber self.old g.n }
        ensures drawn { Draws (IsPartOfBoth (family self.old f.n) (family self.old g.n))
            (without (family self.old f.n) (family self.old g.n)) self.old self.new result }
        ensures full { result ≡ Err NodeFault.Full → IsMoreThan self.old.limit
            (λ h. IsStored h self.old ⊎ IsPartOfBoth (family self.old f.n) (family self.old g.n) h) }
        ensures sound { IsSoundStore self.new }
    {
        without_in(&mut self.store, &mut self.memo, f, g)
    }

    /// The store. Takes no memory.
    pub fn store(&self) -> &Store
        ensures same { result.now ≡ self.now }
        ensures sound { IsSoundStore result.now }
    {
        &self.store
    }

    /// The store alone: the memory of the results is given back.
    pub fn into_store(self) -> Store
        ensures same { result ≡ self }
        ensures sound { IsSoundStore result }
    {
        self.store
    }
}
