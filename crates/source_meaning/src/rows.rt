//! Cases of the rules of names, kinds and targets, and that one refusal is answered.

ghost use Rattle.std.specs.Prelude.{◌≡◌, ℕ, List, [], ◌∷◌, Some, None, Ok, Err};
ghost use Rattle.ar_base.specs.Lists.{IsOneOf};
ghost use Rattle.ar_base.specs.declared.faults.RuleFault.{RuleFault};
ghost use Rattle.ar_base.specs.declared.faults.RuleFault.TheVariants.{Rule};
ghost use Rattle.ar_base.specs.declared.places.Place.{Place};
ghost use Rattle.ar_syntax.specs.declared.expressions.RawExpr.{RawExpr};
ghost use Rattle.ar_syntax.specs.declared.instructions.Instr.{Instr, out-Instr};
ghost use Rattle.ar_syntax.specs.declared.instructions.Instr.TheOpen.{Assign, Tie};
ghost use Rattle.ar_syntax.specs.declared.members.Member.TheOpen.{Assert};
ghost use Rattle.ar_syntax.specs.declared.paths.Path.{Path};
ghost use Rattle.ar_syntax.specs.declared.paths.PathStart.TheVariants.{Here};
ghost use Rattle.class_table.specs.Members.{MemberKind};
ghost use Rattle.hierarchy.specs.Models.{RootedModel};
ghost use Rattle.hierarchy.specs.Units.{UnitPath, kind_at, numbers};
ghost use Rattle.hierarchy.specs.Listing.{Unfolded, forms_at};
ghost use Rattle.source_meaning.specs.Means.{IsSymbol};
ghost use Rattle.source_meaning.specs.Acts.{Conditions, Placed, Sets};
ghost use Rattle.source_meaning.specs.ActsInside.{AreTied};
ghost use Rattle.source_meaning.specs.Tested.{InAction};
ghost use Rattle.source_meaning.specs.Rules.{BreaksNameRule};
ghost use Rattle.source_meaning.specs.Systems.{Declarations, Binds};

/// Worked rows of the rules of names and kinds.
///
/// - `unknown_targets_break_naming`: An assertion `x := ..` in a unit that has no `x` breaks L10 at its target.
/// - `ties_in_actions_break_targets`: A `:=:` in an action breaks L13 at its left path, whatever its paths
///   name.
/// - `members_hide_symbols`: A member of a unit, of whatever kind, hides the symbol of its name.
/// - `ties_carry_both_ways`: A `:=:` carries values both ways: it stands for two assignments, that to the left
///   path first.
pub fn worked_rows()
    ensures unknown_targets_break_naming { (m : RootedModel) (units : List UnitPath) (u : UnitPath) (whole : Instr) (p : Path)
        (e : RawExpr) (x : ℕ)
        → IsOneOf units u → IsOneOf (forms_at m u) (Assert whole) → out-Instr whole ≡ Assign p e
        → p.start ≡ Here
        → numbers p.names.items ≡ x ∷ [] → kind_at m u x ≡ None → BreaksNameRule m units 10 p.at }
    ensures ties_in_actions_break_targets { (m : RootedModel) (units : List UnitPath) (u : UnitPath) (p q : Path)
        → IsOneOf units u
        → InAction m u (Tie p q) → BreaksNameRule m units 13 p.at }
    ensures members_hide_symbols { (m : RootedModel) (u : UnitPath) (p : Path) (x k : ℕ) (kind : MemberKind)
        → numbers p.names.items ≡ x ∷ [] → kind_at m u x ≡ Some kind → IsSymbol m u p k → ⊥ }
    ensures ties_carry_both_ways { (m : RootedModel) (u : UnitPath) (when : Conditions) (p q : Path) (ps : List Placed)
        → Sets m u when (Tie p q) ps → AreTied m u when p q ps }
{}

/// A tree of units is bound or refused, never both, and refused with one rule at one place.
pub fn one_refusal()
    ensures rule { (t : Unfolded) (r s : ℕ) (p q : Place) → Binds t (Err (Rule r p))
        → Binds t (Err (Rule s q))
        → (r ≡ s) × (p ≡ q) }
    ensures apart { (t : Unfolded) (d : Declarations) (f : RuleFault) → Binds t (Ok d)
        → Binds t (Err f) → ⊥ }
{}
