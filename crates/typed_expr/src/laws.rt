//! Laws of expressions, which have no code.

ghost use Rattle.std.specs.Prelude.{◌≡◌, ◌↔◌, ◌⊎◌, ◌<◌, ◌^◌, IsTrue, Contains, Bool, List, [], ◌∷◌, length, count_by, pos};
ghost use Rattle.domains.specs.declared.Value.{Value};
ghost use Rattle.typed_expr.specs.declared.expr.ValueKind.{ValueKind};
ghost use Rattle.typed_expr.specs.declared.expr.Expr.{Expr, out-Expr};
ghost use Rattle.domains.specs.Values.{truth_of};
ghost use Rattle.typed_expr.specs.Values.{count_of};
ghost use Rattle.typed_expr.specs.Sets.{HasExactly};
ghost use Rattle.typed_expr.specs.Yields.{Level, Yields};
ghost use Rattle.typed_expr.specs.YieldsInside.{facts_of};
ghost use Rattle.typed_expr.specs.Kinds.{kind_of, HasKind};
ghost use Rattle.typed_expr.specs.KindsInside.{YieldsItsKind};
ghost use Rattle.typed_expr.specs.Total.{value_of};
ghost use Rattle.typed_expr.specs.Renames.{Renames};

/// Laws of what expressions yield, of their kinds and their values.
///
/// - `more_facts`, `one_fact`, `total_kind`, `one_kind`, `one_value`: More facts yield no less; over one fact
///   for each variable a well-typed expression yields exactly its total value; an expression has one kind, and
///   its total value is of that kind. From at most one fact for each variable an expression yields at most one
///   value.
/// - `listed`, `told`: From finitely many facts for each variable what an expression yields can be listed, and
///   whether it yields a value told.
/// - `renaming_laws`: An expression that differs from another in its variables alone yields the same, where
///   related variables have the same facts.
/// - `count_law`: A count is the number of its true operands, where this is a number of 64 bits.
/// - `kind_law`: What an expression of a kind yields is of the kind, where the facts of each variable are of
///   its kind.
pub fn expression_laws<V, W>()
    ensures more_facts { (few more : V → List Value)
        → ((x : V) (v : Value) → Contains (few x) v → Contains (more x) v)
        → (e : Level V) (v : Value) → Yields (facts_of few) e v → Yields (facts_of more) e v }
    ensures one_fact { (t : V → Value) (kinds : V → ValueKind) → ((x : V) → kind_of (t x) ≡ kinds x)
        → (e : Expr V) (kind : ValueKind) → HasKind kinds (out-Expr V e) kind
        → (v : Value) → Yields (facts_of (λ x. t x ∷ [])) (out-Expr V e) v ↔ (v ≡ value_of t e) }
    ensures total_kind { (t : V → Value) (kinds : V → ValueKind)
        → ((x : V) → kind_of (t x) ≡ kinds x) → (e : Expr V) (kind : ValueKind)
        → HasKind kinds (out-Expr V e) kind → kind_of (value_of t e) ≡ kind }
    ensures one_kind { (kinds : V → ValueKind) (e : Level V) (m n : ValueKind) → HasKind kinds e m
        → HasKind kinds e n → m ≡ n }
    ensures one_value { (facts : V → List Value)
        → ((x : V) (v w : Value) → Contains (facts x) v → Contains (facts x) w → v ≡ w)
        → (e : Level V) (v w : Value) → Yields (facts_of facts) e v → Yields (facts_of facts) e w
        → v ≡ w }
    ensures listed { (facts : V → List Value) (e : Expr V)
        → (set : List Value) × HasExactly set (Yields (facts_of facts) (out-Expr V e)) }
    ensures told { (facts : V → List Value) (e : Expr V) (v : Value)
        → Yields (facts_of facts) (out-Expr V e) v
        ⊎ (Yields (facts_of facts) (out-Expr V e) v → ⊥) }
    ensures renaming_laws { (same : V → W → Bool) (facts : V → List Value) (others : W → List Value)
        → ((x : V) (y : W) → IsTrue (same x y) → facts x ≡ others y)
        → (e : Level V) (f : Level W) → Renames (λ x y. IsTrue (same x y)) e f
        → (v : Value) → Yields (facts_of facts) e v ↔ Yields (facts_of others) f v }
    ensures count_law { (values : List Value) → length values < 2 ^ 63
        → count_of values ≡ pos (count_by truth_of values) }
    ensures kind_law { YieldsItsKind V }
{}
