//! Four worked cases.

ghost use Rattle.std.specs.Prelude.{◌≡◌, ℕ, Bool, true, false, List, [], ◌∷◌};
ghost use Rattle.domains.specs.declared.Value.{Value};
ghost use Rattle.domains.specs.declared.Value.TheVariants.{Truth};
ghost use Rattle.typed_expr.specs.declared.expr.Expr.{Expr};
ghost use Rattle.ar_meaning.specs.Flows.{Flows, Fails, Total, Two};
ghost use Rattle.ar_meaning.specs.Steps.{Step, Next, Refused, NotEnabled};
ghost use Rattle.ar_meaning.specs.Cases.{closed, opened, IsPlainVariable, IsRing, IsQuarrel, AreTurns, follower, ring, quarrel, pair, turns, jointly};

/// A flow that follows a state has the state's value. Three flows in a ring are all true where the
/// first is true without the others, and have their resets where nothing gives them a value. Of two
/// differing values neither is kept. A part that need not take part blocks nothing, and a part that
/// must does.
pub fn worked_cases()
    ensures follows { (e : Expr ℕ) → IsPlainVariable e 0 → (state flow : Bool) → Flows (follower e)
        (Truth state ∷ Truth flow ∷ []) (Total (Truth state ∷ Truth state ∷ [])) }
    ensures ring_on { (either second third : Expr ℕ) → IsRing either second third → (x y z : Bool)
        → Flows (ring either second third) (closed ∷ Truth x ∷ Truth y ∷ Truth z ∷ [])
        (Total (closed ∷ Truth true ∷ Truth true ∷ Truth true ∷ [])) }
    ensures ring_off { (either second third : Expr ℕ) → IsRing either second third → (x y z : Bool)
        → Flows (ring either second third) (opened ∷ Truth x ∷ Truth y ∷ Truth z ∷ [])
        (Total (opened ∷ Truth false ∷ Truth false ∷ Truth false ∷ [])) }
    ensures two_values { (test on opposite off first : Expr ℕ)
        → IsQuarrel test on opposite off first → (x y : Bool)
        → Flows (quarrel test on opposite off first) (opened ∷ Truth x ∷ Truth y ∷ [])
        (Fails (Two 1)) }
    ensures may { (first second off : Expr ℕ) → AreTurns first second off
        → Step pair (Truth true ∷ Truth false ∷ [])
        (jointly false (turns first 0 off) false (turns second 1 off))
        (Next (Truth false ∷ Truth false ∷ [])) }
    ensures none_may { (first second off : Expr ℕ) → AreTurns first second off
        → Step pair (Truth false ∷ Truth false ∷ [])
        (jointly false (turns first 0 off) false (turns second 1 off)) (Refused NotEnabled) }
    ensures must { (first second off : Expr ℕ) → AreTurns first second off
        → Step pair (Truth true ∷ Truth false ∷ [])
        (jointly false (turns first 0 off) true (turns second 1 off)) (Refused NotEnabled) }
{}
