//! Laws of rounds, reasons and cones.

ghost use Rattle.std.specs.Prelude.{◌≡◌, ◌<◌, ◌≤◌, ◌↔◌, ℕ, List, Some};
ghost use Rattle.ar_base.specs.Lists.{Stands, IsOneOf};
ghost use Rattle.domains.specs.declared.Value.{Value};
ghost use Rattle.typed_expr.specs.Yields.{Yields};
ghost use Rattle.typed_expr.specs.declared.expr.Expr.{Expr, out-Expr};
ghost use Rattle.ar_meaning.specs.Systems.{Assign, Variable, Net, System};
ghost use Rattle.ar_meaning.specs.Facts.{PassesConditions, FactOf};
ghost use Rattle.ar_meaning.specs.Flows.{Flows, Total};
ghost use Rattle.ar_meaning.specs.Image.{Expr_renames};
ghost use Rattle.ar_meaning.specs.FlatOf.{IsNumber, IsFlatOf};
ghost use Rattle.flow_reasons.specs.Rounds.{Round};
ghost use Rattle.flow_reasons.specs.RoundsInside.{OfThese};
ghost use Rattle.flow_reasons.specs.Reasons.{Reason, IsDerived, AreReasons, InCone};
ghost use Rattle.flow_reasons.specs.ReasonsInside.{IsReasonCone};

/// Laws of rounds, reasons and cones.
///
/// - `some_round`, `rounds_are_facts`, `rounds_grow`: Each fact stands after some rounds, what stands after
///   rounds is a fact, and what stands after some stands after more.
/// - `reasons_suffice`: From the facts of a reason's variables alone the assignment is reached and yields the
///   value.
/// - `rounds_descend`: In a state with flows each flow that a reason rests on has a smaller round.
/// - `one_list_of_reasons`, `one_cone`: A state with flows has one list of reasons, and an observer has one
///   cone.
/// - `same_flows`, `same_reasons`: A total valuation that a state determines determines itself, and has the
///   reasons of the state.
/// - `flat_rounds`, `flat_reasons`, `flat_cones`: A flat system has the rounds, reasons and cones of its
///   system, and no others.
pub fn reason_laws<V>()
    ensures some_round { (net : Net V) (t : List Value) (x : V) (v : Value) → FactOf net t x v
        → (k : ℕ) × Round net t k x v }
    ensures rounds_are_facts { (net : Net V) (t : List Value) (k : ℕ) (x : V) (v : Value) → Round net t k x v
        → FactOf net t x v }
    ensures rounds_grow { (net : Net V) (t : List Value) (j k : ℕ) (x : V) (v : Value) → j ≤ k
        → Round net t j x v → Round net t k x v }
    ensures reasons_suffice { (net : Net V) (t : List Value) (x : Variable V) (r : Reason)
        → IsDerived net t x r
        → (n : ℕ) (a : Assign V) → r.by ≡ Some n → Stands net.assertions n a
        → PassesConditions (OfThese net r.rests_on (FactOf net t)) a.conditions
        × Yields (OfThese net r.rests_on (FactOf net t)) (out-Expr V a.value) r.value }
    ensures rounds_descend { (net : Net V) (t total : List Value) → Flows net t (Total total)
        → (reasons : List Reason) → AreReasons net t reasons → (r s : Reason) → IsOneOf reasons r
        → IsOneOf reasons s → IsOneOf r.rests_on s.flow → s.round < r.round }
    ensures one_list_of_reasons { (net : Net V) (t total : List Value) → Flows net t (Total total)
        → (rs qs : List Reason) → AreReasons net t rs → AreReasons net t qs → rs ≡ qs }
    ensures one_cone { (net : Net V) (reasons : List Reason) (e : Expr V) (ms ns : List ℕ)
        → IsReasonCone net reasons e ms → IsReasonCone net reasons e ns → ms ≡ ns }
    ensures same_flows { (net : Net V) (t total : List Value)
        → Flows net t (Total total) → Flows net total (Total total) }
    ensures same_reasons { (net : Net V) (t total : List Value)
        → Flows net t (Total total) → (rs : List Reason)
        → (AreReasons net t rs ↔ AreReasons net total rs) }
    ensures flat_rounds { (things : List V) (sys : System V) (flat : System ℕ) → IsFlatOf things sys flat
        → (t : List Value) (k : ℕ) (x : V) (n : ℕ) (v : Value) → Stands things n x
        → (Round sys.net t k x v ↔ Round flat.net t k n v) }
    ensures flat_reasons { (things : List V) (sys : System V) (flat : System ℕ)
        → IsFlatOf things sys flat
        → (t : List Value) (rs : List Reason)
        → (AreReasons sys.net t rs ↔ AreReasons flat.net t rs) }
    ensures flat_cones { (things : List V) (sys : System V) (flat : System ℕ) → IsFlatOf things sys flat
        → (reasons : List Reason) (e : Expr V) (f : Expr ℕ) → Expr_renames (IsNumber things) e f
        → (n : ℕ) → (InCone sys.net reasons e n ↔ InCone flat.net reasons f n) }
{}
