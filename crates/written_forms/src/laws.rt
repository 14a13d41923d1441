//! What follows from the definitions of kinds and of what expressions become.

ghost use Rattle.std.specs.Prelude.{◌≡◌, Option, Some};
ghost use Rattle.ar_base.specs.Numbers.{VarId};
ghost use Rattle.ar_base.specs.declared.places.Place.{Place};
ghost use Rattle.ar_syntax.specs.declared.expressions.RawExpr.{RawExpr};
ghost use Rattle.ar_syntax.specs.declared.paths.Path.{Path};
ghost use Rattle.typed_expr.specs.Kinds.{HasKind};
ghost use Rattle.typed_expr.specs.declared.expr.Expr.{Expr, out-Expr};
ghost use Rattle.typed_expr.specs.declared.expr.ValueKind.{ValueKind};
ghost use Rattle.written_forms.specs.Operands.{RawLevel, level_of, OfKind};
ghost use Rattle.written_forms.specs.Forms.{HasForm};
ghost use Rattle.written_forms.specs.Wrong.{IsMisnamed, IsMistyped};
ghost use Rattle.written_forms.specs.WrongInside.{NamesKind, IsNamedPath};
ghost use Rattle.written_forms.specs.Translating.{leaf_level, BecomesBy};
ghost use Rattle.written_forms.specs.declared.naming.Leaf.{Leaf};

/// Laws of written expressions.
///
/// - `one_kind`: An expression has at most one kind by its form.
/// - `right_expressions`: An expression in which each path names something and nothing has a wrong kind where
///   this kind is wanted of the whole becomes an expression of that kind, where what stands for a path has its
///   kind.
pub fn form_laws()
    ensures one_kind { (kinds : Path → Option ValueKind) (e : RawLevel) (j k : ValueKind)
        → HasForm (NamesKind kinds) e j
        → HasForm (NamesKind kinds) e k → j ≡ k }
    ensures right_expressions { (kinds : Path → Option ValueKind) (leaves : Path → Leaf) (sorts : VarId → ValueKind)
        → ((p : Path) (k : ValueKind) → kinds p ≡ Some k → HasKind sorts (leaf_level (leaves p)) k)
        → (e : RawExpr) (f : Expr VarId) (k : ValueKind)
        → ((at : Place) → IsMisnamed (IsNamedPath kinds) (level_of e) at → ⊥)
        → ((at : Place) → IsMistyped (NamesKind kinds) (OfKind k) e at → ⊥) → BecomesBy leaves e f
        → HasKind sorts (out-Expr VarId f) k }
{}
