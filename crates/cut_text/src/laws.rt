//! What follows from the definitions of the texts of cuts and of conflicts.

ghost use Rattle.std.specs.Prelude.{ℕ, Bool, Option, List, [], ◌∷◌, reverse};
ghost use Rattle.ar_base.specs.Lists.{IsOneOf};
ghost use Rattle.domains.specs.declared.Value.{Value};
ghost use Rattle.typed_expr.specs.Yields.{Yields};
ghost use Rattle.typed_expr.specs.declared.expr.Expr.{Expr, out-Expr};
ghost use Rattle.ar_meaning.specs.Systems.{System};
ghost use Rattle.ar_meaning.specs.Facts.{HasValue};
ghost use Rattle.ar_meaning.specs.Flows.{FlowFault};
ghost use Rattle.ar_meaning.specs.Runs.{Label};
ghost use Rattle.ar_meaning.specs.Image.{Expr_renames};
ghost use Rattle.ar_meaning.specs.FlatOf.{IsNumber};
ghost use Rattle.ar_firing.specs.Static.{IsKeyedStatic};
ghost use Rattle.ar_firing.specs.Cuts.{Reaches, Conflicts, Cut, ConflictSet, IsConflictFreeUpTo};
ghost use Rattle.firable_families.specs.Firable.{AndUpTo};
ghost use Rattle.ar_firing.specs.Forest.{IsForest, IsLine};
ghost use Rattle.ar_firing.specs.Listed.{AreListed};
ghost use Rattle.ar_firing.specs.Operands.{Agrees};
ghost use Rattle.ar_firing.specs.Trees.{AreTrees};
ghost use Rattle.gts_core.specs.declared.system.GtsParts.{GtsParts};
ghost use Rattle.gts_flatten.specs.Elaborating.{Elaborated};
ghost use Rattle.gts_flatten.specs.Flat.{naming_of};
ghost use Rattle.hierarchy.specs.Units.{Thing};
ghost use Rattle.mode_trees.specs.Views.{trees_of};
ghost use Rattle.mode_trees.specs.declared.forests.Forest.{Forest as TheForest};
ghost use Rattle.min_cuts.specs.Lines.{AreInFiringOrder};
ghost use Rattle.min_cuts.specs.Sizes.{count};
ghost use Rattle.cut_text.specs.Printed.{forest_edges, labels_in, cuts_text, conflict_text, things_of};
ghost use Rattle.cut_text.specs.Printed.{HaveOneWay, AreOfEdges, IsForestOf};
ghost use Rattle.cut_text.specs.Texts.{IsCutText, IsConflictText};

use gts_core::laws::one_system;

/// In a static system's forest the trees by the numbers of their ways are trees too, edges with one
/// event have one way, and each event of a set in firing order is that of an edge.
pub fn edges_of_forests()
    ensures trees { (system : System ℕ) (dropped : List ℕ) → IsKeyedStatic system dropped
        → (number : ℕ → ℕ) (f : TheForest) → IsForest system dropped (trees_of number f)
        → AreTrees (trees_of (λ n. n) f) }
    ensures one_way { (system : System ℕ) (dropped : List ℕ) → IsKeyedStatic system dropped
        → (number : ℕ → ℕ) (f : TheForest) → IsForest system dropped (trees_of number f)
        → HaveOneWay (forest_edges f.trees.items) }
    ensures known { (f : TheForest) (sets lists : List (List ℕ))
        → AreInFiringOrder (trees_of (λ n. n) f) sets lists
        → AreOfEdges (forest_edges f.trees.items) lists }
{}

/// The text of cuts and of a conflict over a flat system is that of its source.
///
/// - `cuts_of_the_source`: The listed cuts of a flat system, all or those of at most so many events, each printed in
///   firing order, have the text of the cuts of its source.
/// - `conflicts_of_the_source`, `conflict_text_of_the_source`: The first listed conflict set of a flat system
///   meets a flow fault in firing order, and printed with this it has the text of the conflict of its source.
/// - `lines_of_the_source_replay`: The same of a source, by tests of its flat system.
pub fn cuts_of_the_source()
    ensures cuts_of_the_source { (x : Elaborated) (p : GtsParts) (flat : System ℕ) (dropped : List ℕ) (f : TheForest)
        → IsForestOf x p flat dropped f → (observer : Expr Thing) (other : Expr ℕ)
        → Expr_renames (IsNumber (things_of x)) observer other → (wanted : Value) (order : Option ℕ)
        (sets lists : List (List ℕ)) → AreListed (AndUpTo order (Cut flat dropped other wanted)) sets
        → AreInFiringOrder (trees_of (λ n. n) f) sets lists
        → IsCutText order (naming_of x.declarations) x.system dropped observer wanted
        (cuts_text p (forest_edges f.trees.items) order lists (count sets)) }
    ensures conflicts_of_the_source { (x : Elaborated) (p : GtsParts) (flat : System ℕ) (dropped : List ℕ)
        (f : TheForest) → IsForestOf x p flat dropped f → (other : Expr ℕ) (wanted : Value)
        (conflict top : List ℕ → Bool) → Agrees flat dropped other wanted conflict top
        → (order : Option ℕ) (set : List ℕ) (sets : List (List ℕ)) (events : List ℕ) (lists : List (List ℕ))
        → AreListed (AndUpTo order (ConflictSet flat dropped)) (set ∷ sets)
        → AreInFiringOrder (trees_of (λ n. n) f) (set ∷ sets) (events ∷ lists)
        → (fault : FlowFault)
        × Conflicts flat dropped (reverse (labels_in p (forest_edges f.trees.items) events)) fault }
    ensures conflict_text_of_the_source { (x : Elaborated) (p : GtsParts) (flat : System ℕ) (dropped : List ℕ)
        (f : TheForest) → IsForestOf x p flat dropped f
        → (order : Option ℕ) (set : List ℕ) (sets : List (List ℕ)) (events : List ℕ) (lists : List (List ℕ))
        (fault : FlowFault) → AreListed (AndUpTo order (ConflictSet flat dropped)) (set ∷ sets)
        → AreInFiringOrder (trees_of (λ n. n) f) (set ∷ sets) (events ∷ lists)
        → Conflicts flat dropped (reverse (labels_in p (forest_edges f.trees.items) events)) fault
        → IsConflictText order (naming_of x.declarations) x.system dropped
        (conflict_text p (forest_edges f.trees.items) events fault) }
    ensures lines_of_the_source_replay { (x : Elaborated) (p : GtsParts) (flat : System ℕ) (dropped : List ℕ) (f : TheForest)
        → IsForestOf x p flat dropped f → (observer : Expr Thing) (other : Expr ℕ)
        → Expr_renames (IsNumber (things_of x)) observer other
        → (wanted : Value) (conflict top : List ℕ → Bool)
        → Agrees flat dropped other wanted conflict top
        → (order : Option ℕ) → IsConflictFreeUpTo order flat dropped
        → (sets : List (List ℕ)) → AreListed (AndUpTo order (Cut x.system dropped observer wanted)) sets
        → (set : List ℕ) → IsOneOf sets set → (ls : List Label) → IsLine x.system dropped set ls
        → (t : List Value) × Reaches x.system dropped (reverse ls) t
        × Reaches x.system [] (reverse ls) t
        × Yields (HasValue x.system.net t) (out-Expr Thing observer) wanted }
{
    one_system();
}

/// Fired as they stand on its line, the labels of a cut reach the wanted value, in the system
/// without the dropped events and in the whole one, where the former is static and no set meets a
/// conflict in it.
pub fn lines_replay<V>()
    ensures { (sys : System V) (dropped : List ℕ) → IsKeyedStatic sys dropped
        → (observer : Expr V) (wanted : Value) (conflict top : List ℕ → Bool)
        → Agrees sys dropped observer wanted conflict top
        → (order : Option ℕ) → IsConflictFreeUpTo order sys dropped
        → (sets : List (List ℕ)) → AreListed (AndUpTo order (Cut sys dropped observer wanted)) sets
        → (set : List ℕ) → IsOneOf sets set → (ls : List Label) → IsLine sys dropped set ls
        → (t : List Value) × Reaches sys dropped (reverse ls) t × Reaches sys [] (reverse ls) t
        × Yields (HasValue sys.net t) (out-Expr V observer) wanted }
{}
