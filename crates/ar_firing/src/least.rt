//! Cuts and conflict sets, by two tests of sets of events.

ghost use Rattle.std.specs.Prelude.{ℕ, Bool, false, List, ◌≡◌, ◌↔◌, ◌⊎◌, reverse};
ghost use Rattle.domains.specs.declared.Value.{Value};
ghost use Rattle.typed_expr.specs.declared.expr.Expr.{Expr, out-Expr};
ghost use Rattle.ar_meaning.specs.Systems.{System};
ghost use Rattle.ar_meaning.specs.Facts.{HasValue};
ghost use Rattle.ar_meaning.specs.Flows.{FlowFault};
ghost use Rattle.ar_meaning.specs.Runs.{Label};
ghost use Rattle.ar_meaning.specs.FoundInside.{AreTold};
ghost use Rattle.ar_base.specs.Sets.{Within};
ghost use Rattle.ar_firing.specs.Static.{IsKeyedStatic};
ghost use Rattle.ar_firing.specs.Cuts.{Reaches, Conflicts, Makes, IsLeast, MeetsConflict, Cut, ConflictSet, IsConflictFree, IsFirable};
ghost use Rattle.ar_firing.specs.CutsInside.{HasNoLesser, IsLegalOrder};
ghost use Rattle.typed_expr.specs.Yields.{Yields};
ghost use Rattle.ar_firing.specs.Forest.{IsLine};
ghost use Rattle.ar_firing.specs.Operands.{Agrees, IsFirableWith};

/// Laws of cuts and conflict sets, the least of the sets that make a value or meet a conflict.
///
/// - `no_conflict_by_tests`, `makes_by_tests`, `cuts_by_tests`, `lines_of_cuts`: Where the two tests agree with
///   a static system in which no set meets a conflict, a set makes the value exactly where it is firable and
///   the top test is true, the cuts are the least such sets, and its line fires without fault to the value.
/// - `met_by_tests`, `free_by_tests`, `conflict_sets_by_tests`, `every_order`: Where the two tests agree with a
///   static system, it is free of conflicts exactly where the conflict test is false at each firable set, the
///   conflict sets are the least firable sets at which it is true, and such a set meets its flow fault at the
///   last label of every legal order.
/// - `cuts_in_words`, `conflict_sets_in_words`: A cut is a set that makes the value and of which no proper part
///   does so, and a conflict set is one that meets a conflict and of which no proper part does so.
/// - `makes_told`, `conflicts_told`: Where it can be told whether two keys are one, as with numbers, it can be
///   told whether a set makes the value, and whether it meets a conflict.
/// - `cut_within`, `conflict_set_within`, `not_no_cut`, `not_no_conflict_set`: A set that makes the value has a
///   cut within it, and one that meets a conflict a conflict set, where it can be told whether two keys are
///   one; elsewhere it is refuted that there is none.
pub fn least_sets<V>()
    ensures no_conflict_by_tests { (sys : System V) (dropped : List ℕ) → IsKeyedStatic sys dropped
        → (observer : Expr V) (wanted : Value) (conflict top : List ℕ → Bool)
        → Agrees sys dropped observer wanted conflict top → IsConflictFree sys dropped
        → (set : List ℕ) (t : List Value) → IsFirable sys dropped set t → conflict set ≡ false }
    ensures makes_by_tests { (sys : System V) (dropped : List ℕ) → IsKeyedStatic sys dropped
        → (observer : Expr V) (wanted : Value) (conflict top : List ℕ → Bool)
        → Agrees sys dropped observer wanted conflict top → IsConflictFree sys dropped
        → (set : List ℕ)
        → (Makes sys dropped observer wanted set ↔ IsFirableWith sys dropped top set) }
    ensures cuts_by_tests { (sys : System V) (dropped : List ℕ) → IsKeyedStatic sys dropped
        → (observer : Expr V) (wanted : Value) (conflict top : List ℕ → Bool)
        → Agrees sys dropped observer wanted conflict top → IsConflictFree sys dropped
        → (set : List ℕ)
        → (Cut sys dropped observer wanted set ↔ IsLeast (IsFirableWith sys dropped top) set) }
    ensures lines_of_cuts { (sys : System V) (dropped : List ℕ) → IsKeyedStatic sys dropped
        → (observer : Expr V) (wanted : Value) (conflict top : List ℕ → Bool)
        → Agrees sys dropped observer wanted conflict top → IsConflictFree sys dropped
        → (set : List ℕ) (ls : List Label) → Makes sys dropped observer wanted set
        → IsLine sys dropped set ls → (t : List Value) × Reaches sys dropped (reverse ls) t
        × Yields (HasValue sys.net t) (out-Expr V observer) wanted }
    ensures met_by_tests { (sys : System V) (dropped : List ℕ) → IsKeyedStatic sys dropped
        → (observer : Expr V) (wanted : Value) (conflict top : List ℕ → Bool)
        → Agrees sys dropped observer wanted conflict top → (set : List ℕ)
        → MeetsConflict sys dropped set → IsFirableWith sys dropped conflict set }
    ensures free_by_tests { (sys : System V) (dropped : List ℕ) → IsKeyedStatic sys dropped
        → (observer : Expr V) (wanted : Value) (conflict top : List ℕ → Bool)
        → Agrees sys dropped observer wanted conflict top
        → ((set : List ℕ) (t : List Value) → IsFirable sys dropped set t → conflict set ≡ false)
        → IsConflictFree sys dropped }
    ensures conflict_sets_by_tests { (sys : System V) (dropped : List ℕ) → IsKeyedStatic sys dropped
        → (observer : Expr V) (wanted : Value) (conflict top : List ℕ → Bool)
        → Agrees sys dropped observer wanted conflict top → (set : List ℕ)
        → (ConflictSet sys dropped set ↔ IsLeast (IsFirableWith sys dropped conflict) set) }
    ensures every_order { (sys : System V) (dropped : List ℕ) → IsKeyedStatic sys dropped
        → (observer : Expr V) (wanted : Value) (conflict top : List ℕ → Bool)
        → Agrees sys dropped observer wanted conflict top → (set : List ℕ) (ls : List Label)
        → ConflictSet sys dropped set → IsLegalOrder sys dropped set ls
        → (f : FlowFault) × Conflicts sys dropped ls f }
    ensures cuts_in_words { (sys : System V) (dropped : List ℕ) (observer : Expr V) (wanted : Value)
        (set : List ℕ) → (Cut sys dropped observer wanted set
        ↔ HasNoLesser (Makes sys dropped observer wanted) set) }
    ensures conflict_sets_in_words { (sys : System V) (dropped : List ℕ) (set : List ℕ)
        → (ConflictSet sys dropped set ↔ HasNoLesser (MeetsConflict sys dropped) set) }
    ensures makes_told { AreTold V
        → (sys : System V) (dropped : List ℕ) (observer : Expr V) (wanted : Value) (set : List ℕ)
        → Makes sys dropped observer wanted set ⊎ (Makes sys dropped observer wanted set → ⊥) }
    ensures conflicts_told { AreTold V → (sys : System V) (dropped : List ℕ) (set : List ℕ)
        → MeetsConflict sys dropped set ⊎ (MeetsConflict sys dropped set → ⊥) }
    ensures cut_within { AreTold V
        → (sys : System V) (dropped : List ℕ) (observer : Expr V) (wanted : Value) (set : List ℕ)
        → Makes sys dropped observer wanted set
        → (part : List ℕ) × Within part set × Cut sys dropped observer wanted part }
    ensures conflict_set_within { AreTold V → (sys : System V) (dropped : List ℕ) (set : List ℕ)
        → MeetsConflict sys dropped set
        → (part : List ℕ) × Within part set × ConflictSet sys dropped part }
    ensures not_no_cut { (sys : System V) (dropped : List ℕ) (observer : Expr V) (wanted : Value)
        (set : List ℕ)
        → Makes sys dropped observer wanted set
        → ((part : List ℕ) → Within part set → Cut sys dropped observer wanted part → ⊥) → ⊥ }
    ensures not_no_conflict_set { (sys : System V) (dropped : List ℕ) (set : List ℕ)
        → MeetsConflict sys dropped set
        → ((part : List ℕ) → Within part set → ConflictSet sys dropped part → ⊥) → ⊥ }
{}
