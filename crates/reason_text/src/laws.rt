//! What follows from the definition of the text of reasons.

ghost use Rattle.std.specs.Prelude.{◌≡◌, ℕ, List, Option};
ghost use Rattle.domains.specs.declared.Value.{Value};
ghost use Rattle.typed_expr.specs.declared.expr.Expr.{Expr};
ghost use Rattle.ar_meaning.specs.Systems.{Net};
ghost use Rattle.ar_meaning.specs.TraceText.{Naming};
ghost use Rattle.gts_core.specs.View.{net_of};
ghost use Rattle.gts_core.specs.declared.system.GtsParts.{GtsParts};
ghost use Rattle.gts_flatten.specs.Elaborating.{Elaborated};
ghost use Rattle.gts_flatten.specs.Flat.{IsFlat, naming_of, naming_of_parts};
ghost use Rattle.hierarchy.specs.Listing.{variables};
ghost use Rattle.hierarchy.specs.Units.{Thing};
ghost use Rattle.ar_firing.specs.Operands.{HasFlows};
ghost use Rattle.reason_text.specs.Answers.{AreSameObserver};
ghost use Rattle.reason_text.specs.Texts.{IsReasonText};

/// The text of a flat system is that of its source.
pub fn reasons_of_the_source()
    ensures { (x : Elaborated) (p : GtsParts) → IsFlat x p
        → (values : List Value) (observer : Option (Expr Thing)) (other : Option (Expr ℕ))
        → AreSameObserver (variables x.declarations.model x.declarations.units) observer other
        → (text : List ℕ) → IsReasonText (naming_of_parts p) (net_of p) values other text
        → IsReasonText (naming_of x.declarations) x.system.net values observer text }
{}

/// A valuation with flows has one such text for an observer, or for none.
pub fn one_reason_text<V>()
    ensures { (names : Naming) (net : Net V) (values : List Value) → HasFlows net values
        → (observer : Option (Expr V)) (s t : List ℕ) → IsReasonText names net values observer s
        → IsReasonText names net values observer t → s ≡ t }
{}
