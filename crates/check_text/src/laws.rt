//! What follows from the definition of the text of a check.

ghost use Rattle.std.specs.Prelude.{◌≡◌, ◌↔◌, ℕ, Option, List, map};
ghost use Rattle.domains.specs.declared.Value.{Value};
ghost use Rattle.typed_expr.specs.declared.expr.Expr.{Expr};
ghost use Rattle.ar_meaning.specs.Systems.{System};
ghost use Rattle.ar_meaning.specs.TraceText.{Naming};
ghost use Rattle.ar_meaning.specs.Image.{Expr_renames};
ghost use Rattle.ar_meaning.specs.FlatOf.{IsNumber};
ghost use Rattle.ar_firing.specs.Cuts.{Cut};
ghost use Rattle.ar_firing.specs.Listed.{AreListed};
ghost use Rattle.firable_families.specs.Firable.{AndUpTo};
ghost use Rattle.gts_core.specs.declared.bound.Chain.{Chain as TheChain};
ghost use Rattle.gts_core.specs.declared.system.GtsParts.{GtsParts};
ghost use Rattle.gts_flatten.specs.Elaborating.{Elaborated};
ghost use Rattle.gts_flatten.specs.Flat.{naming_of};
ghost use Rattle.hierarchy.specs.Units.{Thing};
ghost use Rattle.mode_trees.specs.Views.{trees_of};
ghost use Rattle.mode_trees.specs.declared.forests.Forest.{Forest as TheForest};
ghost use Rattle.min_cuts.specs.Lines.{AreInFiringOrder};
ghost use Rattle.job_inputs.specs.Chains.{cut_of};
ghost use Rattle.job_inputs.specs.CutLists.{CutLine};
ghost use Rattle.cut_check.specs.Flat.{AreVerdicts};
ghost use Rattle.cut_check.specs.VerdictsInside.{AreTheCuts};
ghost use Rattle.cut_check.specs.declared.checking.Verdict.{Verdict as TheVerdict};
ghost use Rattle.cut_text.specs.Printed.{forest_edges, things_of, IsForestOf};
ghost use Rattle.check_text.specs.Printed.{text_of_check, chains_within, chain_parts};
ghost use Rattle.check_text.specs.Texts.{IsCheckText, lines_in, within_order};
ghost use Rattle.check_text.specs.TextsInside.{EndsYes};

use gts_core::laws::one_system;

/// The verdicts of the lines of a list by a flat system, and its listed cuts in firing order, have the
/// text of the check of the list by the source; where cuts of at most so many events are meant, the verdicts of the short
/// lines, and the cuts of at most so many.
pub fn check_of_the_source()
    ensures { (x : Elaborated) (p : GtsParts) (flat : System ℕ) (dropped : List ℕ) (f : TheForest)
        → IsForestOf x p flat dropped f → (observer : Expr Thing) (other : Expr ℕ)
        → Expr_renames (IsNumber (things_of x)) observer other → (wanted : Value)
        (order : Option ℕ) (sets lists : List (List ℕ))
        → AreListed (AndUpTo order (Cut flat dropped other wanted)) sets
        → AreInFiringOrder (trees_of (λ n. n) f) sets lists
        → (chains short : List TheChain) (verdicts : List TheVerdict)
        → map chain_parts short ≡ map chain_parts (chains_within order chains)
        → AreVerdicts p flat dropped other wanted short verdicts
        → IsCheckText order (naming_of x.declarations) x.system dropped observer wanted
        (map (cut_of p) chains)
        (text_of_check p (forest_edges f.trees.items) order chains short verdicts lists) }
{
    one_system();
}

/// The text of a check ends with the line `yes` exactly where the sets of the lines that are checked are the cuts that are
/// meant, each once, and each of these lines is an order of its events that ends with the wanted value.
pub fn yes_exactly<V>()
    ensures { (order : Option ℕ) (names : Naming) (sys : System V) (dropped : List ℕ) (observer : Expr V)
        (wanted : Value)
        (cuts : List CutLine) (text : List ℕ)
        → IsCheckText order names sys dropped observer wanted cuts text
        → (EndsYes order text
        ↔ AreTheCuts order sys dropped observer wanted (lines_in (within_order order cuts))) }
{}
