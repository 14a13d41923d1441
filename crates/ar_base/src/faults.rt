//! Refusals that many layers share.

ghost use Rattle.std.specs.Prelude.{◌≡◌};
ghost use Rattle.ar_base.specs.StagesInside.{kept_rule};

use crate::{Count, Place};
use std::alloc::{AllocError, AllocFailed};

/// Memory was refused.
#[derive(Clone, Copy)]
pub struct Memory {}

impl From<AllocError> for Memory {
    ghost use Rattle.std.specs.Prelude.{◌≡◌};

    ghost from_gives = { λ _ e. e ≡ record {} };

    fn from(_error: AllocError) -> Self {
        Memory {}
    }
}

impl<T: Drop> From<AllocFailed<T>> for Memory {
    ghost use Rattle.std.specs.Prelude.{◌≡◌};

    ghost from_gives = { λ _ e. e ≡ record {} };

    fn from(_failed: AllocFailed<T>) -> Self {
        Memory {}
    }
}

/// A cap of the program's own tables, beside the limits of models. Only a text whose table would pass
/// the number of its case reaches one. It is answered as where memory is refused, since the table
/// that the answer needs is not made.
#[derive(Clone, Copy)]
pub enum Cap {
    /// Members of all bodies, inherited ones again in each body that has them: 134,217,728. Bodies:
    /// 16,777,216.
    Members,
    /// Entries of one table of walks: names that may lead to units, over all bodies; names that are
    /// looked at in units; units that walks come to. Each table has at most 16,777,216, the last
    /// one the main block beside them.
    WalkEntries,
    /// Parameters of all units: 4,294,967,295.
    Parameters,
    /// Observers of all units: 4,294,967,295.
    Observers,
    /// Settings of one declaration: 4,294,967,295.
    Settings,
    /// Symbols of a model: 4,294,967,295.
    Symbols,
    /// Bytes of the paths of all units, variables, events and observers, those that stand before the
    /// names in units again: 536,870,912.
    PathBytes,
    /// Results of one step of a sum, a product or another fold over sets of values, each value so
    /// far with each value of the next operand: 8,388,608.
    Results,
    /// Values of all sets of one search for the facts of a state, from the first variable with two
    /// facts on, each as often as it is looked at and with the results of all steps: 67,108,864. As
    /// many of one other evaluation, and 134,217,728 of one test of what all expressions may yield.
    Values,
}

// The one place where a cap becomes want of memory.
impl From<Cap> for Memory {
    ghost use Rattle.std.specs.Prelude.{◌≡◌};

    ghost from_gives = { λ _ e. e ≡ record {} };

    fn from(_cap: Cap) -> Self {
        Memory {}
    }
}

/// Why a model was refused by its rules and limits.
#[derive(Clone, Copy)]
pub enum RuleFault {
    /// The rule of this number, from 1 to 14, is broken at this place.
    Rule(u8, Place),
    /// This count passes its limit.
    Limit(Count),
    /// Memory was refused.
    Memory,
}

impl From<Memory> for RuleFault {
    ghost use Rattle.std.specs.Prelude.{◌≡◌};
    ghost use Rattle.ar_base.specs.declared.faults.RuleFault.TheVariants.{Memory};

    ghost from_gives = { λ _ e. e ≡ Memory };

    fn from(_memory: Memory) -> Self {
        RuleFault::Memory
    }
}

/// The answer of the test of one rule, given the place where it is broken, if it is.
pub fn keep(rule: u8, broken: Option<Place>) -> Result<(), RuleFault>
    ensures { result ≡ kept_rule rule broken }
{
    match broken {
        Some(place) => Err(RuleFault::Rule(rule, place)),
        None => Ok(()),
    }
}
