//! What follows from the definition of the text of cuts in short.

ghost use Rattle.std.specs.Prelude.{ℕ, List};
ghost use Rattle.domains.specs.declared.Value.{Value};
ghost use Rattle.typed_expr.specs.declared.expr.Expr.{Expr};
ghost use Rattle.ar_meaning.specs.Systems.{System};
ghost use Rattle.ar_meaning.specs.Image.{Expr_renames};
ghost use Rattle.ar_meaning.specs.FlatOf.{IsNumber};
ghost use Rattle.ar_firing.specs.Cuts.{Cut};
ghost use Rattle.ar_firing.specs.Listed.{AreListed};
ghost use Rattle.gts_core.specs.declared.system.GtsParts.{GtsParts};
ghost use Rattle.gts_flatten.specs.Elaborating.{Elaborated};
ghost use Rattle.hierarchy.specs.Listing.{AreUnits};
ghost use Rattle.hierarchy.specs.ModelsInside.{KeepsTextRules};
ghost use Rattle.hierarchy.specs.Units.{Thing};
ghost use Rattle.mode_trees.specs.declared.forests.Forest.{Forest as TheForest};
ghost use Rattle.cut_text.specs.Printed.{things_of, IsForestOf};
ghost use Rattle.gate_modules.specs.Choices.{StandFor};
ghost use Rattle.gate_modules.specs.ShortenedInside.{Shortens};
ghost use Rattle.gate_modules.specs.declared.ranges.Range.{Range};
ghost use Rattle.gate_modules.specs.declared.ranges.Short.{Short};
ghost use Rattle.module_text.specs.Printed.{short_lines};
ghost use Rattle.module_text.specs.Ranges.{AreRangesOf};
ghost use Rattle.module_text.specs.Texts.{IsModuleText};

use gts_core::laws::one_system;

/// The listed cuts of a flat system in short, with the ranges of its source's units, have as they are written the text of the
/// modules of the source.
pub fn modules_of_the_source()
    ensures { (x : Elaborated) (p : GtsParts) (flat : System ℕ) (dropped : List ℕ) (f : TheForest)
        → IsForestOf x p flat dropped f → (observer : Expr Thing) (other : Expr ℕ)
        → Expr_renames (IsNumber (things_of x)) observer other → (wanted : Value)
        (sets : List (List ℕ)) → AreListed (Cut flat dropped other wanted) sets
        → (ranges : List Range) → AreRangesOf x.declarations.model x.declarations.units ranges
        → (short : Short) → Shortens sets ranges short
        → IsModuleText x dropped observer wanted (short_lines p f short) }
{
    one_system();
}

/// In the text of the modules of a source that keeps the rules over the whole text, the short forms stand for the cuts:
/// each combination of one set of the module for each unit of a form, with the form's events, is a cut, and each cut comes
/// from just one short form and one combination.
pub fn combinations_are_cuts()
    ensures { (x : Elaborated) (dropped : List ℕ) (observer : Expr Thing) (wanted : Value)
        (text : List ℕ)
        (t : IsModuleText x dropped observer wanted text) → KeepsTextRules x.declarations.model
        → AreUnits x.declarations.model x.declarations.units → StandFor t.cuts t.modules t.forms }
{}
