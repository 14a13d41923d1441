//! Laws of the systems that declarations mean.

ghost use Rattle.std.specs.Prelude.{◌≡◌, ◌↔◌, ℕ, List, Option, Result};
ghost use Rattle.ar_base.specs.Breach.{AreKept};
ghost use Rattle.ar_base.specs.Stages.{Then};
ghost use Rattle.ar_base.specs.declared.faults.RuleFault.{RuleFault};
ghost use Rattle.ar_base.specs.declared.places.Place.{Place};
ghost use Rattle.ar_parser.specs.Models.{ReadsWithin};
ghost use Rattle.ar_syntax.specs.declared.items.Model.{Model};
ghost use Rattle.ar_meaning.specs.ExpandInside.{AreKeyedEvents};
ghost use Rattle.ar_meaning.specs.ImageInside.{IsImage};
ghost use Rattle.ar_meaning.specs.Systems.{System};
ghost use Rattle.class_table.specs.Rules.{BreaksTextRule, text_rules};
ghost use Rattle.hierarchy.specs.Models.{RootedModel, IsRootedIn};
ghost use Rattle.hierarchy.specs.ModelsInside.{KeepsTextRules};
ghost use Rattle.hierarchy.specs.Units.{Thing};
ghost use Rattle.instantiate.specs.Unfolding.{Instantiates};
ghost use Rattle.source_meaning.specs.Systems.{Binds, Declarations, HasDeclarations};
ghost use Rattle.gts_flatten.specs.Elaborating.{Elaborated, BreaksWayRule, Flattens};
ghost use Rattle.gts_flatten.specs.Elaborating.{most_ways_counted, way_parts_counted, nodes_counted};
ghost use Rattle.source_laws.specs.Answers.{SameAnswer};
ghost use Rattle.source_laws.specs.Tables.{SameRooted};
ghost use Rattle.source_laws.specs.Declarations.{IsSameThing, SameDeclarations};
ghost use Rattle.source_laws.specs.Sources.{SameSource};

use crate::bindings::one_binding_or_refusal;
use crate::units::{one_root_of_a_text, units_agree};

/// Declarations that are alike break L14 at the same places: the same synchronisations lead back to
/// their events.
pub fn way_rules_agree()
    ensures { (d e : Declarations) → SameDeclarations d e → (r : ℕ) (p : Place)
        → (BreaksWayRule d r p ↔ BreaksWayRule e r p) }
{
    units_agree();
}

/// Declarations that are alike mean systems that are alike.
///
/// - `systems_agree`: Declarations that are alike, no two of whose events have one key, mean systems that are
///   the same form for form, the ways of their events included.
/// - `counted_ways_agree`, `counted_parts_agree`, `counted_nodes_agree`: Sources that are alike have as many
///   ways of the event that has the most, parts of ways and nodes of expressions.
pub fn systems_agree()
    ensures systems_agree { (d e : Declarations) → SameDeclarations d e → AreKeyedEvents e.events
        → (x y : System Thing) → HasDeclarations d x → HasDeclarations e y
        → IsImage IsSameThing x y }
    ensures counted_ways_agree { (x y : Elaborated) → SameSource x y
        → most_ways_counted x ≡ most_ways_counted y }
    ensures counted_parts_agree { (x y : Elaborated) → SameSource x y
        → way_parts_counted x ≡ way_parts_counted y }
    ensures counted_nodes_agree { (x y : Elaborated) → SameSource x y → nodes_counted x ≡ nodes_counted y }
{}

/// The system of declarations that are alike, no two of whose events have one key, has at most one
/// answer: both mean systems that are the same form for form, or both break L14 at one place, or pass the
/// same limit.
pub fn one_system_or_refusal()
    ensures { (d e : Declarations) → SameDeclarations d e → AreKeyedEvents e.events
        → (a b : Result Elaborated RuleFault) → Flattens d a → Flattens e b
        → SameAnswer SameSource a b }
{
    way_rules_agree();
    systems_agree();
}

/// The source of models that agree has at most one answer, where they keep the rules L1 to L5: both have sources
/// that are alike, or both pass the same limit, or break one rule of L6 to L14 at one place.
pub fn one_source_or_refusal()
    ensures { (m n : RootedModel) → SameRooted m n → KeepsTextRules n
        → (a b : Result Elaborated RuleFault) → Then Instantiates (Then Binds Flattens) m a
        → Then Instantiates (Then Binds Flattens) n b → SameAnswer SameSource a b }
{
    units_agree();
    one_binding_or_refusal();
    one_system_or_refusal();
}

/// However a text that keeps the rules L1 to L5 is read, its source has at most one answer.
pub fn one_source_of_a_text()
    ensures { (text : List ℕ) (k : ℕ) (x y : Model) (main : Option (List ℕ)) (m n : RootedModel)
        → ReadsWithin k text x → ReadsWithin k text y → IsRootedIn x main m → IsRootedIn y main n
        → AreKept text_rules (BreaksTextRule y main n.declared)
        → (a b : Result Elaborated RuleFault) → Then Instantiates (Then Binds Flattens) m a
        → Then Instantiates (Then Binds Flattens) n b → SameAnswer SameSource a b }
{
    one_root_of_a_text();
    one_source_or_refusal();
}
