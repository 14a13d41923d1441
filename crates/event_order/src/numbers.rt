//! New numbers of events.

ghost use Rattle.std.specs.Prelude.{◌≡◌, ◌∷◌, ◌++◌, [], OnOk, IfOk, length, true, false};
ghost use Rattle.diagram_steps.specs.Trees.{edges_of};
ghost use Rattle.mode_diagrams.specs.Costs.{HasDifferentEvents};
ghost use Rattle.event_order.specs.Renumbered.{IsNamed, IsNumberFor, IsRenumbered};
ghost use Rattle.event_order.specs.Taking.{AreNumbersOf, IsNew, IsFrom, events_of};

use ar_base::{EventId, Memory};
use diagram_steps::{NumberedEdge, NumberedTree};
use std::alloc::Global;
use std::collections::HashMap;

/// The events that have a new number, in the order of these numbers, and the number of each.
#[derive(Drop)]
pub(crate) struct Numbers {
    /// The events.
    pub(crate) names: Vec<EventId>,
    /// The number of each.
    pub(crate) numbers: HashMap<EventId, u32>,
}

impl Numbers {
    /// No numbers. Takes no memory.
    pub(crate) fn new(alloc: Global) -> Numbers
        ensures none { result.names.items ≡ [] }
        ensures numbers { AreNumbersOf result.names.items result.numbers }
    {
        Numbers {
            names: Vec::new(alloc),
            numbers: HashMap::new(alloc),
        }
    }

    /// Whether the event has a new number.
    pub(crate) fn has(&self, event: EventId) -> bool
        requires { AreNumbersOf self.now.names.items self.now.numbers }
        ensures yes { result ≡ true → IsNamed self.now.names.items event.n }
        ensures no { result ≡ false → IsNamed self.now.names.items event.n → ⊥ }
    {
        self.numbers.contains_key(&event)
    }

    /// The new number of the event; where it has none, one that no event has.
    pub(crate) fn number_for(&self, event: EventId) -> EventId
        requires { AreNumbersOf self.now.names.items self.now.numbers }
        ensures { IsNumberFor self.now.names.items event.n result.n }
    {
        match self.numbers.get(&event).copied() {
            Some(number) => EventId::new(number),
            None => EventId::new(self.names.len() as u32),
        }
    }

    // Gives the event, which has no number yet, the next one.
    fn number(&mut self, event: EventId) -> Result<EventId, Memory>
        requires numbers { AreNumbersOf self.old.names.items self.old.numbers }
        requires fresh { IsNamed self.old.names.items event.n → ⊥ }
        ensures names { OnOk result (self.new.names.items ≡ self.old.names.items ++ event ∷ []) }
        ensures numbers { OnOk result (AreNumbersOf self.new.names.items self.new.numbers) }
        ensures next { IfOk result (λ e. e.n ≡ length self.old.names.items) }
    {
        let number = self.names.len() as u32;
        self.names.push(event)?;
        self.numbers.insert(event, number)?;
        Ok(EventId::new(number))
    }

    /// The tree over the next numbers, which its events get. None of them has a number yet.
    pub(crate) fn renumber(
        &mut self,
        alloc: Global,
        tree: &NumberedTree,
    ) -> Result<NumberedTree, Memory>
        requires numbers { AreNumbersOf self.old.names.items self.old.numbers }
        requires different { HasDifferentEvents tree.now }
        requires fresh { IsNew self.old.names.items tree.now }
        ensures names { OnOk result (self.new.names.items
            ≡ self.old.names.items ++ events_of (edges_of tree.now)) }
        ensures numbers { OnOk result (AreNumbersOf self.new.names.items self.new.numbers) }
        ensures renumbered { IfOk result (λ t. IsRenumbered self.new.names.items tree.now t) }
        ensures next { IfOk result (λ t. IsFrom (length self.old.names.items) t) }
    {
        let mut edges = Vec::new(alloc);
        for edge in &tree.edges {
            let event = self.number(edge.event)?;
            edges.push(NumberedEdge {
                event,
                from: edge.from,
            })?;
        }
        Ok(NumberedTree { edges })
    }
}
