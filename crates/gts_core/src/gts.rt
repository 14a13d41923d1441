//! Flat systems.

ghost use Rattle.std.specs.Prelude.{◌≡◌};
ghost use Rattle.ar_io.specs.Handing.{Writes};
ghost use Rattle.gts_core.specs.Printed.{flat_text};
ghost use Rattle.gts_core.specs.Sound.{IsSound};

use crate::print::{asserts, events, observers, variables};
use crate::system::GtsParts;
use ar_io::{Sink, SinkFailed};
use std::marker::Model;

/// A flat system: a guarded transition system over numbered variables, seen as its parts.
///
/// Its lists have fewer than 2^32 items and its numbers are in range. Its expressions are typed; guards and conditions are
/// truth values. Actions assign state variables and assertions flows, each a value of its target's kind. An observer's value
/// has the observer's kind, and declared values are in their domains. The ways of an event are those that name it, numbered
/// from 1 in order, and no way leads back to itself through its parts.
#[derive(Drop)]
pub struct Gts {
    parts: GtsParts,
}

impl Model for Gts {
    ghost use Rattle.gts_core.specs.contracts.system.GtsParts.{the_row as parts_row};
    ghost use Rattle.gts_core.specs.declared.system.GtsParts.{GtsParts};
    ghost use Rattle.gts_core.specs.Sound.{IsSound};

    ghost Value = { GtsParts };

    ghost coded = { parts_row.coded };

    ghost view = { λ g. g.parts };

    ghost invariant = { λ g. IsSound g.parts };
}

impl Gts {
    /// The system of these parts, which are to be sound. Takes no memory.
    pub fn new(parts: GtsParts) -> Gts
        requires { IsSound parts }
        ensures { result ≡ parts }
    {
        Gts { parts }
    }

    /// The parts of the system. Takes no memory.
    pub fn parts(&self) -> &GtsParts
        ensures parts { result.now ≡ self.now }
        ensures sound { IsSound self.now }
    {
        &self.parts
    }

    /// Writes the text of the system: its variables, its ways by event and number, its assignments and its observers, a
    /// line each. After a fault of the sink the sink has a first part of the text. Takes no memory.
    pub fn print<K: Sink>(&self, out: &mut K) -> Result<(), SinkFailed>
        ensures { Writes (K.state out.old) (K.state out.new) (flat_text self.now) result }
    {
        let parts = &self.parts;
        variables(out, parts, &parts.variables)?;
        events(out, parts, &parts.events)?;
        asserts(out, parts, &parts.assigns)?;
        observers(out, parts, &parts.observers)
    }
}
