//! Cuts and conflicts of sets of at most so many events.

ghost use Rattle.std.specs.Prelude.{ℕ, Bool, false, List, Option, Some, ◌≡◌, ◌≤◌, ◌↔◌, reverse};
ghost use Rattle.domains.specs.declared.Value.{Value};
ghost use Rattle.typed_expr.specs.declared.expr.Expr.{Expr, out-Expr};
ghost use Rattle.ar_meaning.specs.Systems.{System};
ghost use Rattle.ar_meaning.specs.Facts.{HasValue};
ghost use Rattle.ar_meaning.specs.Runs.{Label};
ghost use Rattle.ar_meaning.specs.FoundInside.{AreTold};
ghost use Rattle.ar_base.specs.Sets.{Within};
ghost use Rattle.ar_firing.specs.Static.{IsKeyedStatic};
ghost use Rattle.ar_firing.specs.Cuts.{Reaches, HasOrder, Makes, IsLeast, Cut, IsConflictFree, IsFirable, IsConflictFreeUpTo};
ghost use Rattle.ar_firing.specs.CutsInside.{UpTo};
ghost use Rattle.typed_expr.specs.Yields.{Yields};
ghost use Rattle.ar_firing.specs.Forest.{IsLine};
ghost use Rattle.ar_firing.specs.Operands.{Agrees, IsFirableWith};

/// Laws of sets of at most so many events.
///
/// - `parts_too`, `larger_orders`: A part of a set has no more events than it, and a set of at most so many
///   has at most any greater number.
/// - `least_up_to`: The least of the sets of at most so many events that make the value are the cuts that have
///   at most so many.
/// - `free_up_to`: Where no set meets a conflict, none of at most so many events does.
/// - `calm_up_to`, `makes_up_to`, `cuts_up_to`, `lines_up_to`: Where the two tests agree with a static system
///   in which no set of at most so many events meets a conflict, the conflict test is false at each such
///   firable set; such a set makes the value exactly where it is firable and the top test is true; it is a cut
///   exactly where it is the least such; and its line fires without fault to the value.
/// - `free_by_tests_up_to`: Where the conflict test is false at each firable set of at most so many events, no
///   such set meets a conflict.
/// - `told_up_to`: Where it can be told whether two keys are one, as with numbers, each firable set of at most
///   so many events has an order.
pub fn sets_up_to<V>()
    ensures parts_too { (order : Option ℕ) (set part : List ℕ) → Within part set → UpTo order set
        → UpTo order part }
    ensures larger_orders { (k n : ℕ) (set : List ℕ) → k ≤ n → UpTo (Some k) set → UpTo (Some n) set }
    ensures least_up_to { (order : Option ℕ) (sys : System V) (dropped : List ℕ) (observer : Expr V)
        (wanted : Value) (set : List ℕ)
        → (IsLeast (λ (s : List ℕ). Makes sys dropped observer wanted s × UpTo order s) set
        ↔ (Cut sys dropped observer wanted set × UpTo order set)) }
    ensures free_up_to { (order : Option ℕ) (sys : System V) (dropped : List ℕ) → IsConflictFree sys dropped
        → IsConflictFreeUpTo order sys dropped }
    ensures calm_up_to { (order : Option ℕ) (sys : System V) (dropped : List ℕ) → IsKeyedStatic sys dropped
        → (observer : Expr V) (wanted : Value) (conflict top : List ℕ → Bool)
        → Agrees sys dropped observer wanted conflict top → IsConflictFreeUpTo order sys dropped
        → (set : List ℕ) (t : List Value) → UpTo order set → IsFirable sys dropped set t
        → conflict set ≡ false }
    ensures makes_up_to { (order : Option ℕ) (sys : System V) (dropped : List ℕ) → IsKeyedStatic sys dropped
        → (observer : Expr V) (wanted : Value) (conflict top : List ℕ → Bool)
        → Agrees sys dropped observer wanted conflict top → IsConflictFreeUpTo order sys dropped
        → (set : List ℕ) → UpTo order set
        → (Makes sys dropped observer wanted set ↔ IsFirableWith sys dropped top set) }
    ensures cuts_up_to { (order : Option ℕ) (sys : System V) (dropped : List ℕ) → IsKeyedStatic sys dropped
        → (observer : Expr V) (wanted : Value) (conflict top : List ℕ → Bool)
        → Agrees sys dropped observer wanted conflict top → IsConflictFreeUpTo order sys dropped
        → (set : List ℕ) → UpTo order set
        → (Cut sys dropped observer wanted set ↔ IsLeast (IsFirableWith sys dropped top) set) }
    ensures lines_up_to { (order : Option ℕ) (sys : System V) (dropped : List ℕ) → IsKeyedStatic sys dropped
        → (observer : Expr V) (wanted : Value) (conflict top : List ℕ → Bool)
        → Agrees sys dropped observer wanted conflict top → IsConflictFreeUpTo order sys dropped
        → (set : List ℕ) (ls : List Label) → UpTo order set → Makes sys dropped observer wanted set
        → IsLine sys dropped set ls → (t : List Value) × Reaches sys dropped (reverse ls) t
        × Yields (HasValue sys.net t) (out-Expr V observer) wanted }
    ensures free_by_tests_up_to { (order : Option ℕ) (sys : System V) (dropped : List ℕ)
        → IsKeyedStatic sys dropped
        → (observer : Expr V) (wanted : Value) (conflict top : List ℕ → Bool)
        → Agrees sys dropped observer wanted conflict top
        → ((set : List ℕ) (t : List Value) → UpTo order set → IsFirable sys dropped set t
        → conflict set ≡ false)
        → IsConflictFreeUpTo order sys dropped }
    ensures told_up_to { AreTold V → (order : Option ℕ) (sys : System V) (dropped : List ℕ)
        → IsKeyedStatic sys dropped → IsConflictFreeUpTo order sys dropped
        → (set : List ℕ) (t : List Value) → UpTo order set → IsFirable sys dropped set t
        → (u : List Value) × HasOrder sys dropped set u }
{}
