//! Where the words of a target lead.

ghost use Rattle.std.specs.Prelude.{◌≡◌, ◌↔◌, IsTrue, List, map};
ghost use Rattle.ar_base.specs.Lists.{Stands};
ghost use Rattle.class_table.specs.declared.tables.Classes.{Classes as Table};
ghost use Rattle.hierarchy.specs.Models.{RootedModel};
ghost use Rattle.hierarchy.specs.Units.{UnitPath};
ghost use Rattle.hierarchy.specs.Settings.{target_word_of, is_init as is_one_init, is_reset as is_one_reset};
ghost use Rattle.hierarchy.specs.Tie.{AreOutlines};
ghost use Rattle.unit_rules.specs.Rules.{IsSettingTarget};
ghost use Rattle.unit_walks.specs.Settling.{AreOutcomes};
ghost use Rattle.unit_rules.specs.Settables.{AreSettables};

use crate::settables::{Settable, Settables};
use ar_base::UnitId;
use ar_syntax::Word;
use hierarchy::Outline;
use unit_walks::{Led, Walks};

/// Whether the words lead from the unit through inner units to what they may set: a parameter,
/// `init` of a state variable or `reset` of a flow. Takes no memory; the words go into no more units
/// than stand in one another.
pub(crate) fn is_target(
    settables: &Settables,
    outlines: &[Outline],
    walks: &Walks,
    unit: UnitId,
    words: &[Word],
) -> bool
    ensures { (m : RootedModel) (units : List UnitPath) (classes : Table) (u : UnitPath)
        → AreOutlines m units classes outlines.now → AreOutcomes m units walks.now
        → AreSettables m units settables.now → Stands units unit.n u
        → IsTrue result ↔ IsSettingTarget m u (map target_word_of words.now) }
{
    let Some((word, rest)) = words.split_first() else {
        return false;
    };
    let Word::Name(name) = word else {
        return false;
    };
    let Some(outline) = outlines.get(unit.n as usize) else {
        return false;
    };
    match settables.find(outline.body, *name) {
        None => false,
        Some(Settable::Parameter) => rest.is_empty(),
        Some(Settable::State) => is_init(rest),
        Some(Settable::Flow) => is_reset(rest),
        Some(Settable::Inner) => match walks.outcome(unit, *name) {
            Led::Unit(inner) => is_target(settables, outlines, walks, inner, rest),
            Led::Nothing => false,
            Led::Loops => false,
        },
    }
}

// Whether this is the one word `init`.
fn is_init(words: &[Word]) -> bool
    ensures { result ≡ is_one_init (map target_word_of words.now) }
{
    matches!(words, [Word::Init])
}

// Whether this is the one word `reset`.
fn is_reset(words: &[Word]) -> bool
    ensures { result ≡ is_one_reset (map target_word_of words.now) }
{
    matches!(words, [Word::Reset])
}
