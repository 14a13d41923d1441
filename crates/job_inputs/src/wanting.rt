//! The observer and the value that words name.

ghost use Rattle.std.specs.Prelude.{IfOk};
ghost use Rattle.gts_flatten.specs.Elaborating.{Elaborated};
ghost use Rattle.job_inputs.specs.Flat.{IsOfTree};
ghost use Rattle.job_inputs.specs.Answers.{AnswersObserver, AnswersWanted};

use crate::names_of;
use crate::values::value_of;
use ar_base::{Memory, Text, UnitId};
use domains::Value;
use gts_core::Gts;
use hierarchy::{First, Tree, observer_at};
use std::alloc::Global;

/// An observer, and a value of its type.
#[derive(Clone, Copy)]
pub struct Wanted {
    /// The observer's number, from 0.
    pub observer: u32,
    /// The value.
    pub value: Value,
}

/// Why words ask for no value of an observer.
#[derive(Clone, Copy)]
pub enum WantedFault {
    /// The path names no observer.
    NoObserver,
    /// The word is no value of the observer's type, or there is none and the observer is not Boolean.
    NoValue,
    /// Memory was refused.
    Memory,
}

impl From<Memory> for WantedFault {
    ghost use Rattle.std.specs.Prelude.{◌≡◌};
    ghost use Rattle.job_inputs.specs.declared.wanting.WantedFault.TheVariants as fault;

    ghost from_gives = { λ _ e. e ≡ fault.Memory };

    fn from(_memory: Memory) -> Self {
        WantedFault::Memory
    }
}

/// The observer that the path names, read from the main block and through aliases too, and the value of its type that the
/// word writes: `true` or `false`, a whole number of 64 bits in digits without leading zeros behind an optional `-`, or a
/// symbol's name. Without a word a Boolean observer is asked for `true`. NoObserver exactly where the path names no observer;
/// else NoValue exactly where the word writes no value of the observer's type, or is missing where the observer is not
/// Boolean.
pub fn read_wanted(
    alloc: Global,
    tree: &Tree,
    gts: &Gts,
    observer: &[u8],
    value: &Option<Text>,
) -> Result<Wanted, WantedFault>
    requires { (x : Elaborated) × IsOfTree x tree.now gts.now }
    ensures { (x : Elaborated) → IsOfTree x tree.now gts.now
        → AnswersWanted x gts.now observer.now value.now result }
{
    let Some(number) = observer_named(alloc, tree, gts, observer)? else {
        return Err(WantedFault::NoObserver);
    };
    let parts = gts.parts();
    let Some(found) = parts.observers.get(number as usize) else {
        return Err(WantedFault::NoObserver);
    };
    let Some(value) = value_of(&parts.symbols, found.kind, value) else {
        return Err(WantedFault::NoValue);
    };
    Ok(Wanted {
        observer: number,
        value,
    })
}

/// The observer that a path names, read from the main block and through aliases too; None exactly where it names none. The
/// error is want of memory.
pub fn observer_named(
    alloc: Global,
    tree: &Tree,
    gts: &Gts,
    path: &[u8],
) -> Result<Option<u32>, Memory>
    requires { (x : Elaborated) × IsOfTree x tree.now gts.now }
    ensures { (x : Elaborated) → IsOfTree x tree.now gts.now
        → IfOk result (AnswersObserver x path.now) }
{
    match names_of(alloc, &tree.classes.names, path)? {
        Some(names) => Ok(observer_at(tree, UnitId::new(0), First::Here, &names)),
        None => Ok(None),
    }
}
