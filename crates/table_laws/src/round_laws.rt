//! What the rounds come to.

ghost use Rattle.std.specs.Prelude.{ℕ, List, Bool, ◌≡◌, true};
ghost use Rattle.domains.specs.declared.Value.{Value};
ghost use Rattle.ar_meaning.specs.Systems.{Net};
ghost use Rattle.ar_meaning.specs.Facts.{FactOf};
ghost use Rattle.ar_meaning.specs.FactsInside.{AreKeyed};
ghost use Rattle.ar_meaning.specs.Flows.{Flows, Outcome};
ghost use Rattle.ar_firing.specs.Operands.{HasFault};
ghost use Rattle.table_laws.specs.Known.{IsKnownInTheEnd, IsConflict, AreOfFlows};
ghost use Rattle.table_laws.specs.RoundLaws.{HasTotals};

/// Laws of the rounds of the blocks.
///
/// - `known_facts`: What is known after the rounds of all blocks are facts.
/// - `fault`, `flows`: Of a state that has an outcome, as each has: where a conflict is seen, its flows are a
///   fault, and where none is seen, it has flows, and they are the total values of what is known. So as many
///   rounds as a block has flows are enough.
pub fn laws_of_rounds<V>()
    ensures known_facts { (net : Net V) (t : List Value) (blocks : List (List V)) (known : V → Value → Bool)
        → IsKnownInTheEnd net t blocks known → (x : V) (v : Value) → known x v ≡ true → FactOf net t x v }
    ensures fault { (net : Net V) (t : List Value) (blocks : List (List V))
        (known : V → Value → Bool) (o : Outcome)
        → AreKeyed net → AreOfFlows net blocks → IsKnownInTheEnd net t blocks known → Flows net t o
        → IsConflict net known → HasFault net t }
    ensures flows { (net : Net V) (t : List Value) (blocks : List (List V))
        (known : V → Value → Bool) (o : Outcome)
        → AreKeyed net → AreOfFlows net blocks → IsKnownInTheEnd net t blocks known → Flows net t o
        → (IsConflict net known → ⊥) → HasTotals net t known }
{}
