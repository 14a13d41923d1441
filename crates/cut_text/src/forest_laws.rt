//! What follows from the definition of the text of a forest.

ghost use Rattle.std.specs.Prelude.{◌≤◌, ℕ, Option, List, length};
ghost use Rattle.ar_meaning.specs.Systems.{System};
ghost use Rattle.ar_firing.specs.Forest.{IsForest};
ghost use Rattle.ar_firing.specs.Rules.{KeepsUpTo};
ghost use Rattle.gts_core.specs.View.{Views};
ghost use Rattle.gts_core.specs.declared.system.GtsParts.{GtsParts};
ghost use Rattle.gts_flatten.specs.Elaborating.{Elaborated};
ghost use Rattle.gts_flatten.specs.Flat.{IsFlat, naming_of};
ghost use Rattle.mode_trees.specs.Views.{trees_of, number_in};
ghost use Rattle.mode_trees.specs.Ways.{OwnTheirWays};
ghost use Rattle.mode_trees.specs.declared.forests.Forest.{Forest as TheForest};
ghost use Rattle.cut_text.specs.ForestPrinted.{edge_count, forest_text};
ghost use Rattle.cut_text.specs.ForestTexts.{IsForestText};

use gts_core::laws::one_system;

/// The forest of a flat system that keeps the rules of the static fragment that are asked has, as it is written, the text of
/// the forest of its source, and it has no more edges than the system has events.
pub fn forests_of_the_source()
    ensures text { (x : Elaborated) (p : GtsParts) (flat : System ℕ) → IsFlat x p → Views p flat
        → (order : Option ℕ) (dropped : List ℕ) (f : TheForest) → KeepsUpTo order flat dropped
        → IsForest flat dropped (trees_of (number_in p) f) → OwnTheirWays p f.trees.items
        → IsForestText (naming_of x.declarations) x.system dropped (forest_text p f) }
    ensures few { (p : GtsParts) (flat : System ℕ) → Views p flat
        → (order : Option ℕ) (dropped : List ℕ) (f : TheForest) → KeepsUpTo order flat dropped
        → IsForest flat dropped (trees_of (number_in p) f) → edge_count f.trees.items ≤ length p.events.items }
{
    one_system();
}
