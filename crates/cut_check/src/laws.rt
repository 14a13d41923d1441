//! What follows from the definitions of checks of lists.

ghost use Rattle.std.specs.Prelude.{◌≡◌, ◌↔◌, ℕ, List, Option};
ghost use Rattle.ar_base.specs.Lists.{Stands};
ghost use Rattle.domains.specs.declared.Value.{Value};
ghost use Rattle.typed_expr.specs.declared.expr.Expr.{Expr};
ghost use Rattle.ar_meaning.specs.Systems.{System};
ghost use Rattle.ar_meaning.specs.Runs.{Label};
ghost use Rattle.ar_meaning.specs.Image.{Expr_renames};
ghost use Rattle.ar_meaning.specs.FlatOf.{IsNumber, IsFlatOf};
ghost use Rattle.ar_firing.specs.CutsInside.{UpTo};
ghost use Rattle.cut_check.specs.Verdicts.{events_of, IsTrueLine, Said, IsSaid, IsMissing};
ghost use Rattle.cut_check.specs.VerdictsInside.{IsRight, AreTheCuts};

/// Laws of the verdicts on a list of cuts.
///
/// - `flat_lines`, `flat_verdicts`, `flat_missing`: A flat system's lines are true, and its cuts missing,
///   exactly as those of its system; and the same is said of each line.
/// - `one_verdict`: One thing is said of a line.
/// - `right_lists`: Where each line has at most as many events as are asked for, each line is good and no cut
///   of at most so many events is missing exactly where the sets of the lines are these cuts, each once, and
///   each line is an order of its events that ends with the wanted value. Where no number is given, these are
///   all cuts, and the lines are any. This rests on a set that makes the value having a cut within it, which
///   has no more events than the set.
pub fn verdict_laws<V>()
    ensures flat_lines { (things : List V) (sys : System V) (flat : System ℕ) → IsFlatOf things sys flat
        → (dropped : List ℕ) (observer : Expr V) (other : Expr ℕ)
        → Expr_renames (IsNumber things) observer other → (wanted : Value) (ls : List Label)
        → (IsTrueLine sys dropped observer wanted ls ↔ IsTrueLine flat dropped other wanted ls) }
    ensures flat_verdicts { (things : List V) (sys : System V) (flat : System ℕ) → IsFlatOf things sys flat
        → (dropped : List ℕ) (observer : Expr V) (other : Expr ℕ)
        → Expr_renames (IsNumber things) observer other → (wanted : Value)
        (lines : List (List Label)) (n : ℕ) (said : Said)
        → (IsSaid sys dropped observer wanted lines n said
        ↔ IsSaid flat dropped other wanted lines n said) }
    ensures flat_missing { (things : List V) (sys : System V) (flat : System ℕ)
        → IsFlatOf things sys flat
        → (dropped : List ℕ) (observer : Expr V) (other : Expr ℕ)
        → Expr_renames (IsNumber things) observer other → (wanted : Value)
        (lines : List (List Label)) (set : List ℕ)
        → (IsMissing sys dropped observer wanted lines set
        ↔ IsMissing flat dropped other wanted lines set) }
    ensures one_verdict { (sys : System V) (dropped : List ℕ) (observer : Expr V) (wanted : Value)
        (lines : List (List Label)) (n : ℕ) (a b : Said)
        → IsSaid sys dropped observer wanted lines n a
        → IsSaid sys dropped observer wanted lines n b
        → a ≡ b }
    ensures right_lists { (order : Option ℕ) (sys : System V) (dropped : List ℕ) (observer : Expr V)
        (wanted : Value) (lines : List (List Label))
        → ((n : ℕ) (ls : List Label) → Stands lines n ls → UpTo order (events_of ls))
        → (IsRight order sys dropped observer wanted lines
        ↔ AreTheCuts order sys dropped observer wanted lines) }
{}
