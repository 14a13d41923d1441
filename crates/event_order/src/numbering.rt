//! Trees taken one after the other, with the next numbers for their events.

ghost use Rattle.std.specs.Prelude.{◌≡◌, ◌≤◌, ◌<◌, List, OnOk, length};
ghost use Rattle.ar_base.specs.Lists.{Stands};
ghost use Rattle.mode_diagrams.specs.Trees.{AreApart};
ghost use Rattle.mode_diagrams.specs.Costs.{HaveDifferentEvents};
ghost use Rattle.mode_diagrams.specs.Lacking.{HavePlacedEvents};
ghost use Rattle.diagram_steps.specs.declared.trees.NumberedTree.{NumberedTree as Tree};
ghost use Rattle.event_order.specs.Taking.{AreTaken, IsNew, Meets, Takes, names_in};

use crate::numbers::Numbers;
use crate::places::TreePlaces;
use ar_base::{EventId, Memory};
use diagram_steps::NumberedTree;
use std::alloc::Global;

/// The trees that are taken so far, over the new numbers of their events.
#[derive(Drop)]
pub(crate) struct Numbering {
    /// The trees.
    pub(crate) trees: Vec<NumberedTree>,
    /// The numbers.
    pub(crate) numbers: Numbers,
}

impl Numbering {
    /// No trees. Takes no memory.
    pub(crate) fn new(alloc: Global) -> Numbering
        ensures { (trees : List Tree) → AreTaken trees result }
    {
        Numbering {
            trees: Vec::new(alloc),
            numbers: Numbers::new(alloc),
        }
    }

    // Takes the tree at this place, of which no event has a number.
    fn take(&mut self, alloc: Global, trees: &[NumberedTree], place: usize) -> Result<(), Memory>
        requires different { HaveDifferentEvents trees.now }
        requires taken { AreTaken trees.now self.old }
        requires place { place < length trees.now }
        requires fresh { (tree : Tree) → Stands trees.now place tree → IsNew (names_in self.old) tree }
        ensures { OnOk result (Takes trees.now place self.old self.new) }
    {
        let tree = self.numbers.renumber(alloc, &trees[place])?;
        self.trees.push(tree)?;
        Ok(())
    }

    /// Takes the tree that has the event, unless it is taken already or there is none.
    pub(crate) fn meet(
        &mut self,
        alloc: Global,
        trees: &[NumberedTree],
        places: &TreePlaces,
        event: EventId,
    ) -> Result<(), Memory>
        requires apart { AreApart trees.now }
        requires different { HaveDifferentEvents trees.now }
        requires placed { HavePlacedEvents trees.now (length trees.now) places.now }
        requires taken { AreTaken trees.now self.old }
        ensures { OnOk result (Meets trees.now event.n self.old self.new) }
    {
        if self.numbers.has(event) {
            return Ok(());
        }
        let Some(place) = places.get(&event).copied() else {
            return Ok(());
        };
        self.take(alloc, trees, place as usize)
    }
}
