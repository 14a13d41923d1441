//! The rules of the static fragment.

ghost use Rattle.std.specs.Prelude.{ℕ, List, Option, None, ◌≡◌};
ghost use Rattle.ar_meaning.specs.Systems.{System};
ghost use Rattle.ar_meaning.specs.FoundInside.{AreTold};
ghost use Rattle.ar_firing.specs.Static.{IsStatic};
ghost use Rattle.ar_firing.specs.Rules.{Rule, Spot, KeepsStaticRule, BreaksStaticRule, IsFirstBroken, IsAskedUpTo, KeepsUpTo};
ghost use Rattle.ar_firing.specs.RulesInside.{HasTargets, KeepsAll};

/// Laws of systems that keep the rules of the static fragment, and of those that break one.
///
/// - `one_rule`, `all_rules`, `first`: A rule that is kept is broken nowhere, and at most one rule is the first
///   that is broken, with one thing that it is shown with.
/// - `rules_make_static`: A system that keeps the rules is static as the laws of firing orders ask it.
/// - `unbroken_rules_make_static`, `not_neither`: Where it can be told whether two keys are one, as with
///   numbers, a system of which no rule is broken is static; and where each assignment of an assertion has a
///   variable as its target, it is refuted that a system neither keeps every rule nor has a first one that it
///   breaks.
/// - `asked_first`, `asked_make_static`, `not_neither_asked`: The same of the rules that are asked.
/// - `all_are_asked`, `asked_are_all`: A system that keeps every rule keeps those that are asked; and where no number of
///   events is given these are all.
pub fn static_rules<V>()
    ensures one_rule { (sys : System V) (dropped : List ℕ) (rule : Rule) (spot : Spot)
        → KeepsStaticRule sys dropped rule → BreaksStaticRule sys dropped rule spot → ⊥ }
    ensures all_rules { (sys : System V) (dropped : List ℕ) → KeepsAll sys dropped
        → (rule : Rule) (spot : Spot) → IsFirstBroken sys dropped rule spot → ⊥ }
    ensures first { (sys : System V) (dropped : List ℕ) (rule other : Rule) (spot there : Spot)
        → IsFirstBroken sys dropped rule spot → IsFirstBroken sys dropped other there
        → (rule ≡ other) × (spot ≡ there) }
    ensures rules_make_static { (sys : System V) (dropped : List ℕ) → KeepsAll sys dropped
        → IsStatic sys dropped }
    ensures unbroken_rules_make_static { AreTold V → (sys : System V) (dropped : List ℕ)
        → ((rule : Rule) (spot : Spot) → BreaksStaticRule sys dropped rule spot → ⊥) → IsStatic sys dropped }
    ensures not_neither { AreTold V → (sys : System V) (dropped : List ℕ) → HasTargets sys
        → (KeepsAll sys dropped → ⊥)
        → ((rule : Rule) (spot : Spot) → IsFirstBroken sys dropped rule spot → ⊥) → ⊥ }
    ensures asked_first { (order : Option ℕ) (sys : System V) (dropped : List ℕ) → KeepsUpTo order sys dropped
        → (rule : Rule) (spot : Spot) → IsAskedUpTo order rule → IsFirstBroken sys dropped rule spot → ⊥ }
    ensures asked_make_static { (order : Option ℕ) (sys : System V) (dropped : List ℕ)
        → KeepsUpTo order sys dropped → IsStatic sys dropped }
    ensures all_are_asked { (order : Option ℕ) (sys : System V) (dropped : List ℕ) → KeepsAll sys dropped
        → KeepsUpTo order sys dropped }
    ensures asked_are_all { (sys : System V) (dropped : List ℕ) → KeepsUpTo None sys dropped → KeepsAll sys dropped }
    ensures not_neither_asked { AreTold V → (order : Option ℕ) (sys : System V) (dropped : List ℕ) → HasTargets sys
        → (KeepsUpTo order sys dropped → ⊥)
        → ((rule : Rule) (spot : Spot) → IsAskedUpTo order rule → IsFirstBroken sys dropped rule spot → ⊥) → ⊥ }
{}
