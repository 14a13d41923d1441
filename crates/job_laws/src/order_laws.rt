//! What follows from the definition of the text of cuts where those of at most so many events are asked for.

ghost use Rattle.std.specs.Prelude.{◌≤◌, ℕ, List, Some, None};
ghost use Rattle.ar_base.specs.Lists.{IsOneOf};
ghost use Rattle.ar_firing.specs.Static.{IsKeyedStatic};
ghost use Rattle.ar_meaning.specs.Runs.{Label};
ghost use Rattle.ar_meaning.specs.Systems.{System};
ghost use Rattle.ar_meaning.specs.TraceText.{Naming};
ghost use Rattle.cut_text.specs.Texts.{IsCutText};
ghost use Rattle.domains.specs.declared.Value.{Value};
ghost use Rattle.typed_expr.specs.declared.expr.Expr.{Expr};

/// A larger order only adds lines: each line of a listing of the cuts of at most k events is a line of one of at most
/// n, for k up to n (`larger_orders_only_add`), and of the listing of all cuts (`all_cuts_have_the_small`).
pub fn larger_orders_only_add<V>()
    ensures larger_orders_only_add { (names : Naming) (sys : System V) (dropped : List ℕ) → IsKeyedStatic sys dropped
        → (observer : Expr V) (wanted : Value) (k n : ℕ) → k ≤ n → (text whole : List ℕ)
        (small : IsCutText (Some k) names sys dropped observer wanted text)
        (large : IsCutText (Some n) names sys dropped observer wanted whole)
        (line : List Label) → IsOneOf small.lines line → IsOneOf large.lines line }
    ensures all_cuts_have_the_small { (names : Naming) (sys : System V) (dropped : List ℕ)
        → IsKeyedStatic sys dropped → (observer : Expr V) (wanted : Value) (k : ℕ) (text whole : List ℕ)
        (small : IsCutText (Some k) names sys dropped observer wanted text)
        (all : IsCutText None names sys dropped observer wanted whole)
        (line : List Label) → IsOneOf small.lines line → IsOneOf all.lines line }
{}
