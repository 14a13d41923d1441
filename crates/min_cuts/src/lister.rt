//! The sets of a family, one after the other.

ghost use Rattle.std.specs.Prelude.{◌≡◌, ℕ, List, [], IfOk, IsOk, true};
ghost use Rattle.std.specs.Borrow.{sem};
ghost use Rattle.ar_firing.specs.Trees.{AreTrees};
ghost use Rattle.mode_trees.specs.Views.{trees_of};
ghost use Rattle.zdd_nodes.specs.Families.{has};
ghost use Rattle.zdd_nodes.specs.Nodes.{family as family_of, IsFamilyNumber};
ghost use Rattle.firable_families.specs.FirableInside.{IsFirableOf};
ghost use Rattle.min_cuts.specs.Lines.{AreInFiringOrder};

use crate::orders::{find_spots, name_spots, order_of, places_of};
use crate::sizes::largest;
use crate::steps::{Step, descend, retreat};
use ar_base::{EventId, Memory};
use gate_diagrams::Family;
use mode_trees::Forest;
use std::alloc::Global;
use std::marker::Model;
use zdd_nodes::{NodeId, Store};

/// The sets of a family that are still to be given, seen as a list of them in their order, each as its events in
/// firing order.
#[derive(Drop)]
pub struct Lister {
    store: Store,
    // The events of the set that comes next, as far as they are known, each with what it left.
    steps: Vec<Step>,
    // The number of the sets that come next, behind the events of the steps; 0 after the last set.
    next: NodeId,
    // The events of all edges in firing order, and for each event its place there.
    order: Vec<EventId>,
    places: Vec<usize>,
    // The places of the events of the set that is given, and these events.
    spots: Vec<usize>,
    given: Vec<EventId>,
    // How many events the largest set has.
    longest: usize,
}

impl Model for Lister {
    ghost use Rattle.std.specs.Prelude.{ℕ, List};

    ghost Value = { List (List ℕ) };

    ghost use Rattle.min_cuts.specs.Listing.{left_in, IsSoundLister};

    ghost view = { left_in };

    ghost invariant = { IsSoundLister };
}

impl Lister {
    ghost use Rattle.min_cuts.specs.Gives.{IsFirstSet, GivesThenGoesOn};

    /// A lister of all sets of the family, which are firable in the trees of the forest. Takes all memory of the
    /// listing, and none where the family has no set.
    pub fn open(alloc: Global, family: Family, forest: &Forest) -> Result<Lister, Memory>
        requires root { IsFamilyNumber family.store family.root.n }
        requires trees { AreTrees (trees_of (λ n. n) forest.now) }
        requires firable { (s : List ℕ) → has (family_of family.store family.root.n) s ≡ true
            → IsFirableOf (trees_of (λ n. n) forest.now) s }
        ensures lines { IfOk result (λ left. AreInFiringOrder (trees_of (λ n. n) forest.now)
            (family_of family.store family.root.n) left) }
        ensures empty { family.root.n ≡ 0 → IsOk result }
    {
        let Family { store, root } = family;
        if root.n == 0 {
            return Ok(Lister::ended(alloc, store));
        }
        let longest = largest(alloc, &store, root)? as usize;
        let order = order_of(alloc, forest)?;
        let places = places_of(alloc, &order)?;
        let steps = Vec::with_capacity(alloc, longest)?;
        let spots = Vec::with_capacity(alloc, longest)?;
        let given = Vec::with_capacity(alloc, longest)?;
        Ok(Lister {
            store,
            steps,
            next: root,
            order,
            places,
            spots,
            given,
            longest,
        })
    }

    // A lister with no set left. Takes no memory.
    fn ended(alloc: Global, store: Store) -> Lister
        ensures { result ≡ [] }
    {
        Lister {
            store,
            steps: Vec::new(alloc),
            next: NodeId::new(0),
            order: Vec::new(alloc),
            places: Vec::new(alloc),
            spots: Vec::new(alloc),
            given: Vec::new(alloc),
            longest: 0,
        }
    }

    /// The events of the next set, in firing order; None exactly where no set is left. Takes no memory.
    pub fn next(&mut self) -> Option<&[EventId]>
        ensures* goes_on { sem 𝓛 (GivesThenGoesOn self.entry result) }
        ensures first { IsFirstSet self.old result }
    {
        if self.next.n == 0 {
            return None;
        }
        descend(&self.store, &mut self.steps, self.next);
        find_spots(&self.steps, &self.places, &mut self.spots);
        name_spots(&self.order, &self.spots, &mut self.given);
        self.next = retreat(&mut self.steps);
        Some(self.given.as_slice())
    }
}
