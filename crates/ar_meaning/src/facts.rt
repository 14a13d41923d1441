//! The facts that follow from a state.

ghost use Rattle.std.specs.Prelude.{ℕ, List, Bool, IsTrue, ◌≡◌, ◌↔◌, true, Contains, length};
ghost use Rattle.ar_base.specs.Lists.{Stands, IsOneOf};
ghost use Rattle.domains.specs.declared.Value.{Value};
ghost use Rattle.typed_expr.specs.Yields.{Yields};
ghost use Rattle.typed_expr.specs.declared.expr.Expr.{out-Expr};
ghost use Rattle.ar_meaning.specs.Systems.{Assign, Variable, Net};
ghost use Rattle.ar_meaning.specs.Facts.{PassesConditions, Allows, HasValue, HasStateValue, FactOf};
ghost use Rattle.ar_meaning.specs.FactsInside.{AreKeyed, AreNumberedVariables};
ghost use Rattle.ar_meaning.specs.Flows.{Flows, Outcome};

/// Laws of facts, and of what flows and variables are read from.
///
/// - `facts_given`, `facts_closed`, `facts_are_least`, `more_facts`: The facts hold what the state gives and
///   what each assignment adds that they reach, they are the least such, and more values give more facts.
/// - `keyed_by_number`, `values_by_number`, `given_by_number`, `allowed_by_number`: Where each variable stands
///   for itself by its number, a valuation's value at a number is that variable's.
/// - `flows_read_states`: The flows of two valuations that give each state variable the same value are the
///   same: the values of flows are not read.
pub fn fact_laws<V>()
    ensures facts_given { (net : Net V) (t : List Value) (x : V) (v : Value) → HasStateValue net t x v
        → FactOf net t x v }
    ensures facts_closed { (net : Net V) (t : List Value) (a : Assign V) (v : Value)
        → IsOneOf net.assertions a → PassesConditions (FactOf net t) a.conditions
        → Yields (FactOf net t) (out-Expr V a.value) v → Allows net a.target v
        → FactOf net t a.target v }
    ensures facts_are_least { (net : Net V) (t : List Value) (holds : V → Value → Bool)
        → ((x : V) (v : Value) → HasStateValue net t x v → IsTrue (holds x v))
        → ((a : Assign V) (v : Value) → IsOneOf net.assertions a
        → PassesConditions (λ x w. IsTrue (holds x w)) a.conditions
        → Yields (λ x w. IsTrue (holds x w)) (out-Expr V a.value) v
        → Allows net a.target v → IsTrue (holds a.target v))
        → (x : V) (v : Value) → FactOf net t x v → IsTrue (holds x v) }
    ensures more_facts { (net : Net V) (t u : List Value)
        → ((x : V) (v : Value) → HasStateValue net t x v → HasStateValue net u x v) → (x : V) (v : Value)
        → FactOf net t x v → FactOf net u x v }
    ensures keyed_by_number { (net : Net ℕ) → AreNumberedVariables net → AreKeyed net }
    ensures values_by_number { (net : Net ℕ) → AreNumberedVariables net
        → (t : List Value) (n : ℕ) (x : Variable ℕ) (v : Value) → Stands net.variables n x
        → (HasValue net t n v ↔ Stands t n v) }
    ensures given_by_number { (net : Net ℕ) → AreNumberedVariables net
        → (t : List Value) (n : ℕ) (x : Variable ℕ) (v : Value) → Stands net.variables n x
        → (HasStateValue net t n v ↔ ((x.is_state ≡ true) × Stands t n v)) }
    ensures allowed_by_number { (net : Net ℕ) → AreNumberedVariables net → (n : ℕ) (x : Variable ℕ) (v : Value)
        → Stands net.variables n x → (Allows net n v ↔ Contains x.domain v) }
    ensures flows_read_states { (net : Net V) (t u : List Value) → length t ≡ length net.variables
        → length u ≡ length net.variables
        → ((n : ℕ) (x : Variable V) → Stands net.variables n x → x.is_state ≡ true
        → (v : Value) × Stands t n v × Stands u n v)
        → (o : Outcome) → Flows net t o → Flows net u o }
{}
