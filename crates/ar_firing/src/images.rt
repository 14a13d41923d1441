//! A flat system has the firing orders, cuts, forests and broken rules of its system.

ghost use Rattle.std.specs.Prelude.{ℕ, List, Option, ◌↔◌};
ghost use Rattle.domains.specs.declared.Value.{Value};
ghost use Rattle.typed_expr.specs.declared.expr.Expr.{Expr};
ghost use Rattle.ar_meaning.specs.Systems.{System};
ghost use Rattle.ar_meaning.specs.Flows.{FlowFault};
ghost use Rattle.ar_meaning.specs.Runs.{Label};
ghost use Rattle.ar_meaning.specs.Image.{Expr_renames};
ghost use Rattle.ar_meaning.specs.FlatOf.{IsNumber, IsFlatOf};
ghost use Rattle.ar_firing.specs.Cuts.{Reaches, Conflicts, Makes, MeetsConflict, Cut, ConflictSet, IsFirable};
ghost use Rattle.ar_firing.specs.Forest.{ModeTree, IsModeTree, IsForest, IsLine};
ghost use Rattle.ar_firing.specs.Rules.{Rule, Spot, KeepsStaticRule, BreaksStaticRule, IsFirstBroken, KeepsUpTo};
ghost use Rattle.ar_firing.specs.RulesInside.{KeepsAll};

/// Laws of a flat system and the system that it is of.
///
/// - `reaches`, `conflicts`, `makes`, `cuts`, `meets`, `conflict_sets`: A system and a flat system of it have
///   the same firing orders, conflicts, cuts and conflict sets.
/// - `firable`, `lines`, `trees`, `forests`: A system and a flat system of it have the same firable sets,
///   lines, trees and forest.
/// - `keeps`, `breaks`, `first_broken`, `all`, `all_asked`: A system and a flat system of it keep and break the same rules
///   of the static fragment, by the same numbers.
pub fn flat_systems<V>()
    ensures reaches { (things : List V) (sys : System V) (flat : System ℕ)
        → IsFlatOf things sys flat → (dropped : List ℕ) (ls : List Label) (t : List Value)
        → (Reaches sys dropped ls t ↔ Reaches flat dropped ls t) }
    ensures conflicts { (things : List V) (sys : System V) (flat : System ℕ)
        → IsFlatOf things sys flat → (dropped : List ℕ) (ls : List Label) (f : FlowFault)
        → (Conflicts sys dropped ls f ↔ Conflicts flat dropped ls f) }
    ensures makes { (things : List V) (sys : System V) (flat : System ℕ) → IsFlatOf things sys flat
        → (dropped : List ℕ) (observer : Expr V) (other : Expr ℕ)
        → Expr_renames (IsNumber things) observer other → (wanted : Value) (set : List ℕ)
        → (Makes sys dropped observer wanted set ↔ Makes flat dropped other wanted set) }
    ensures cuts { (things : List V) (sys : System V) (flat : System ℕ) → IsFlatOf things sys flat
        → (dropped : List ℕ) (observer : Expr V) (other : Expr ℕ)
        → Expr_renames (IsNumber things) observer other → (wanted : Value) (set : List ℕ)
        → (Cut sys dropped observer wanted set ↔ Cut flat dropped other wanted set) }
    ensures meets { (things : List V) (sys : System V) (flat : System ℕ) → IsFlatOf things sys flat
        → (dropped : List ℕ) (set : List ℕ)
        → (MeetsConflict sys dropped set ↔ MeetsConflict flat dropped set) }
    ensures conflict_sets { (things : List V) (sys : System V) (flat : System ℕ)
        → IsFlatOf things sys flat → (dropped : List ℕ) (set : List ℕ)
        → (ConflictSet sys dropped set ↔ ConflictSet flat dropped set) }
    ensures firable { (things : List V) (sys : System V) (flat : System ℕ)
        → IsFlatOf things sys flat → (dropped set : List ℕ) (t : List Value)
        → (IsFirable sys dropped set t ↔ IsFirable flat dropped set t) }
    ensures lines { (things : List V) (sys : System V) (flat : System ℕ) → IsFlatOf things sys flat
        → (dropped set : List ℕ) (ls : List Label)
        → (IsLine sys dropped set ls ↔ IsLine flat dropped set ls) }
    ensures trees { (things : List V) (sys : System V) (flat : System ℕ) → IsFlatOf things sys flat
        → (dropped : List ℕ) (tree : ModeTree)
        → (IsModeTree sys dropped tree ↔ IsModeTree flat dropped tree) }
    ensures forests { (things : List V) (sys : System V) (flat : System ℕ)
        → IsFlatOf things sys flat → (dropped : List ℕ) (trees : List ModeTree)
        → (IsForest sys dropped trees ↔ IsForest flat dropped trees) }
    ensures keeps { (things : List V) (sys : System V) (flat : System ℕ) → IsFlatOf things sys flat
        → (dropped : List ℕ) (rule : Rule) → (KeepsStaticRule sys dropped rule ↔ KeepsStaticRule flat dropped rule) }
    ensures breaks { (things : List V) (sys : System V) (flat : System ℕ) → IsFlatOf things sys flat
        → (dropped : List ℕ) (rule : Rule) (spot : Spot)
        → (BreaksStaticRule sys dropped rule spot ↔ BreaksStaticRule flat dropped rule spot) }
    ensures first_broken { (things : List V) (sys : System V) (flat : System ℕ)
        → IsFlatOf things sys flat → (dropped : List ℕ) (rule : Rule) (spot : Spot)
        → (IsFirstBroken sys dropped rule spot ↔ IsFirstBroken flat dropped rule spot) }
    ensures all { (things : List V) (sys : System V) (flat : System ℕ) → IsFlatOf things sys flat
        → (dropped : List ℕ) → (KeepsAll sys dropped ↔ KeepsAll flat dropped) }
    ensures all_asked { (things : List V) (sys : System V) (flat : System ℕ)
        → IsFlatOf things sys flat → (order : Option ℕ) (dropped : List ℕ)
        → (KeepsUpTo order sys dropped ↔ KeepsUpTo order flat dropped) }
{}
