//! Laws of the binding of models that agree: it has at most one answer.

ghost use Rattle.std.specs.Prelude.{ℕ, List, Option, Result};
ghost use Rattle.ar_base.specs.Breach.{AreKept};
ghost use Rattle.ar_base.specs.Stages.{Then};
ghost use Rattle.ar_base.specs.declared.faults.RuleFault.{RuleFault};
ghost use Rattle.ar_parser.specs.Models.{ReadsWithin};
ghost use Rattle.ar_syntax.specs.declared.items.Model.{Model};
ghost use Rattle.class_table.specs.Rules.{BreaksTextRule, text_rules};
ghost use Rattle.hierarchy.specs.Listing.{Unfolded, AreUnits};
ghost use Rattle.hierarchy.specs.Models.{RootedModel, IsRootedIn};
ghost use Rattle.hierarchy.specs.ModelsInside.{KeepsTextRules};
ghost use Rattle.hierarchy.specs.Units.{UnitPath};
ghost use Rattle.instantiate.specs.Unfolding.{Instantiates};
ghost use Rattle.source_laws.specs.Answers.{SameAnswer};
ghost use Rattle.source_laws.specs.Units.{SameUnfolded};
ghost use Rattle.source_meaning.specs.Systems.{Declarations, AreOf, Binds};
ghost use Rattle.source_laws.specs.Declarations.{SameDeclarations};

use crate::units::{one_root_of_a_text, units_agree};
use parser_laws::readings::agreement_opens;

/// The units of a model that keeps the rules L1 to L5 have one list of declarations: two are alike.
pub fn one_list_of_declarations()
    ensures { (m : RootedModel) (us : List UnitPath) → KeepsTextRules m → AreUnits m us
        → (d e : Declarations) → AreOf m us d → AreOf m us e → SameDeclarations d e }
{}

/// The binding of models that agree has at most one answer, where they have the same units and keep
/// the rules L1 to L5: both have declarations that are alike, or both break one rule at one place.
pub fn one_binding_or_refusal()
    ensures { (t u : Unfolded) → SameUnfolded t u → KeepsTextRules u.model
        → AreUnits u.model u.units → (a b : Result Declarations RuleFault) → Binds t a
        → Binds u b → SameAnswer SameDeclarations a b }
{
    agreement_opens();
}

/// However a text that keeps the rules L1 to L5 is read, the unfolding and the binding of its main
/// block have at most one answer.
pub fn one_binding_of_a_text()
    ensures { (text : List ℕ) (k : ℕ) (x y : Model) (main : Option (List ℕ)) (m n : RootedModel)
        → ReadsWithin k text x → ReadsWithin k text y → IsRootedIn x main m → IsRootedIn y main n
        → AreKept text_rules (BreaksTextRule y main n.declared)
        → (a b : Result Declarations RuleFault) → Then Instantiates Binds m a
        → Then Instantiates Binds n b → SameAnswer SameDeclarations a b }
{
    agreement_opens();
    one_root_of_a_text();
    units_agree();
}
