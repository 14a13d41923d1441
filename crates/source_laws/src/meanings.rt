//! Laws of what expressions, instructions and units of models that agree mean.

ghost use Rattle.std.specs.Prelude.{◌≡◌, ◌↔◌, ℕ, List};
ghost use Rattle.ar_base.specs.declared.places.Place.{Place};
ghost use Rattle.ar_syntax.specs.declared.expressions.RawExpr.{RawExpr};
ghost use Rattle.ar_syntax.specs.declared.instructions.Instr.{Instr, out-Instr};
ghost use Rattle.domains.specs.declared.Value.{Value};
ghost use Rattle.parser_laws.specs.Expressions.{SameExpr, SameInstr};
ghost use Rattle.typed_expr.specs.Yields.{Level};
ghost use Rattle.hierarchy.specs.Models.{RootedModel};
ghost use Rattle.hierarchy.specs.Units.{UnitPath, Thing};
ghost use Rattle.source_laws.specs.Tables.{SameRooted};
ghost use Rattle.written_forms.specs.Operands.{level_of};
ghost use Rattle.source_meaning.specs.Acts.{Conditions, Placed, Sets};
ghost use Rattle.source_meaning.specs.Means.{Means, ValueOf};
ghost use Rattle.source_meaning.specs.Rules.{BreaksNameRule};
ghost use Rattle.source_meaning.specs.Systems.{Declarations, AreOf};

use parser_laws::readings::agreement_opens;

/// What is written in models that agree means the same.
///
/// - `expressions`, `values`, `instructions`: In models that agree expressions that agree mean the same over
///   variables, each parameter, init and reset has the same value, and instructions that agree have the same
///   assignments at the same places.
/// - `declarations_agree`: What the units of a model declare they declare in each model that agrees with it,
///   save for the model itself: the same variables, assertions, events, observers and places.
/// - `name_rules_agree`: Models that agree break the same of the rules L10 to L13 at the same places, where
///   they have the same units.
pub fn meanings_agree()
    ensures expressions { (m n : RootedModel) → SameRooted m n → (u : UnitPath) (e f : RawExpr)
        → SameExpr e f → (l : Level Thing) → Means m u (level_of e) l → Means n u (level_of f) l }
    ensures values { (m n : RootedModel) → SameRooted m n → (t : Thing) (v : Value)
        → (ValueOf m t v ↔ ValueOf n t v) }
    ensures instructions { (m n : RootedModel) → SameRooted m n → (u : UnitPath) (i j : Instr)
        → SameInstr i j → (when : Conditions) (ps : List Placed)
        → Sets m u when (out-Instr i) ps → Sets n u when (out-Instr j) ps }
    ensures declarations_agree { (m n : RootedModel) → SameRooted m n → (us : List UnitPath) (d : Declarations)
        → AreOf m us d → AreOf n us (record d { model = n }) }
    ensures name_rules_agree { (m n : RootedModel) → SameRooted m n → (us : List UnitPath) (r : ℕ) (p : Place)
        → (BreaksNameRule m us r p ↔ BreaksNameRule n us r p) }
{
    agreement_opens();
}
