//! What follows from the definitions of values.

ghost use Rattle.std.specs.Prelude.{◌≡◌, ◌↔◌, ℕ, ℤ, Bool, List, Some};
ghost use Rattle.ar_base.specs.Lists.{IsOneOf, AreDifferent};
ghost use Rattle.ar_syntax.specs.declared.expressions.RawForm.TheOpen.{Whole as Written};
ghost use Rattle.domains.specs.declared.Value.{Value};
ghost use Rattle.domains.specs.declared.Value.TheVariants.{Whole};
ghost use Rattle.typed_expr.specs.Renames.{Renames};
ghost use Rattle.typed_expr.specs.Yields.{Level};
ghost use Rattle.ar_meaning.specs.ImageInside.{IsImage};
ghost use Rattle.ar_meaning.specs.Runs.{Runs, Command, Moment};
ghost use Rattle.ar_meaning.specs.Systems.{Assign, System};
ghost use Rattle.hierarchy.specs.Models.{RootedModel};
ghost use Rattle.hierarchy.specs.Listing.{events};
ghost use Rattle.written_forms.specs.Operands.{RawLevel, level_of};
ghost use Rattle.hierarchy.specs.Units.{UnitPath, Thing};
ghost use Rattle.hierarchy.specs.Settings.{Attribute, in_force};
ghost use Rattle.source_meaning.specs.Means.{Means, ValueOf};
ghost use Rattle.source_meaning.specs.Systems.{Declarations};
ghost use Rattle.source_meaning.specs.SystemsInside.{IsSystemOfUnits};
ghost use Rattle.source_meaning.specs.Kinds.{HasKindAt};
ghost use Rattle.source_meaning.specs.BoundExpressions.{IsLeafFor, IsBoundExpression};
ghost use Rattle.source_meaning.specs.BoundActs.{AreLeaves, IsBoundInstruction};
ghost use Rattle.written_forms.specs.Acting.{ActsAs};
ghost use Rattle.written_forms.specs.Parts.{InstrForm};
ghost use Rattle.gts_core.specs.declared.bound.Act.{Act, out-Act};
ghost use Rattle.gts_core.specs.declared.system.GtsParts.{GtsParts};
ghost use Rattle.gts_core.specs.Bound.{assigns_of_act};
ghost use Rattle.ar_meaning.specs.Flows.{Flows, Outcome};
ghost use Rattle.source_meaning.specs.Binding.{IsBoundFrom, net_of_bound};
ghost use Rattle.source_meaning.specs.SoundBound.{IsSoundAct, SetsSort};
ghost use Rattle.source_meaning.specs.declared.bound.Bound.{Bound as BoundForms};
ghost use Rattle.written_forms.specs.Operands.{AnyKind, PathIn};
ghost use Rattle.written_forms.specs.Wrong.{IsMistyped};
ghost use Rattle.written_forms.specs.Translating.{BecomesBy};
ghost use Rattle.written_forms.specs.declared.naming.Leaf.{Leaf};
ghost use Rattle.ar_base.specs.Numbers.{VarId};
ghost use Rattle.ar_base.specs.declared.places.Place.{Place};
ghost use Rattle.ar_syntax.specs.declared.expressions.RawExpr.{RawExpr};
ghost use Rattle.ar_syntax.specs.declared.paths.Path.{Path};
ghost use Rattle.typed_expr.specs.declared.expr.Expr.{Expr};

/// A parameter whose value in force is written as a whole number has this number as its value.
pub fn numbers_are_values()
    ensures { (m : RootedModel) (t : Thing) (a : Attribute) (n : ℤ) → in_force m t ≡ Some a
        → level_of a.value ≡ Written n → ValueOf m t (Whole n) }
{}

/// Where no two symbols have one name, a written expression has one meaning at a unit, and a
/// parameter, an init or a reset one value.
pub fn one_meaning()
    ensures means { (m : RootedModel) → AreDifferent m.declared.symbols
        → (u : UnitPath) (e : RawLevel) (l k : Level Thing) → Means m u e l → Means m u e k
        → Renames (λ (x y : Thing). x ≡ y) l k }
    ensures values { (m : RootedModel) → AreDifferent m.declared.symbols
        → (t : Thing) (v w : Value) → ValueOf m t v → ValueOf m t w → v ≡ w }
{}

/// A main block means one system: two that it means differ in the room that their expressions take
/// alone, and have the same runs.
pub fn one_system()
    ensures system { (m : RootedModel) (units : List UnitPath) → AreDifferent m.declared.symbols
        → AreDifferent units → AreDifferent (events m units)
        → (x y : System Thing) → IsSystemOfUnits m units x → IsSystemOfUnits m units y
        → IsImage (λ (t u : Thing). t ≡ u) x y }
    ensures runs { (m : RootedModel) (units : List UnitPath) → AreDifferent m.declared.symbols
        → AreDifferent units → AreDifferent (events m units)
        → (x y : System Thing) → IsSystemOfUnits m units x → IsSystemOfUnits m units y
        → (cs : List Command) (ms : List Moment) → (Runs x cs ms ↔ Runs y cs ms) }
{}

/// Laws of bound forms, which have numbers for variables.
///
/// - `bound_expressions`: Where each path in an expression became what it stands for and nothing in it has a
///   wrong kind, what it became is what it means, with numbers for variables.
/// - `bound_instructions`: Where each path in an instruction became what it stands for, its targets are
///   variables, and nothing in it has a wrong kind, what it became has its assignments, with numbers for
///   variables, in the same order and at the same places.
/// - `bound_flows`: Bound forms have, at each state, the flows or the fault of the declarations that they are
///   those of.
/// - `sound_instructions`: Each assignment of a sound instruction sets a state variable, or a flow, as the
///   instruction does.
pub fn bound_forms()
    ensures bound_expressions { (m : RootedModel) (units : List UnitPath) (u : UnitPath) (leaves : Path
        → Leaf) (e : RawExpr) (f : Expr VarId)
        → ((p : Path) → PathIn p (level_of e) → IsLeafFor m units u p (leaves p))
        → ((at : Place) → IsMistyped (HasKindAt m u) AnyKind e at → ⊥) → BecomesBy leaves e f
        → IsBoundExpression m units u e f }
    ensures bound_instructions { (m : RootedModel) (units : List UnitPath) (u : UnitPath) (leaves : Path → Leaf)
        (i : InstrForm) (a : Act) → AreLeaves m units u leaves i → ActsAs leaves i a
        → IsBoundInstruction m units u i a }
    ensures bound_flows { (d : Declarations) (b : BoundForms) → IsBoundFrom d b → (t : List Value) (o : Outcome)
        → (Flows d.net t o ↔ Flows (net_of_bound b) t o) }
    ensures sound_instructions { (p : GtsParts) (to_state : Bool) (a : Act) (q : Assign ℕ)
        → IsSoundAct p to_state (out-Act a) → IsOneOf (assigns_of_act a) q → SetsSort p to_state q }
{}
