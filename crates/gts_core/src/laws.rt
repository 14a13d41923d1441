//! Laws of flat systems.

ghost use Rattle.std.specs.Prelude.{◌≡◌, ℕ, List};
ghost use Rattle.ar_base.specs.Lists.{Stands, IsOneOf};
ghost use Rattle.typed_expr.specs.Kinds.{HasKind};
ghost use Rattle.typed_expr.specs.Renames.{Renames};
ghost use Rattle.typed_expr.specs.declared.expr.Expr.{Expr, out-Expr};
ghost use Rattle.ar_meaning.specs.Systems.{System};
ghost use Rattle.ar_meaning.specs.Image.{Expr_renames};
ghost use Rattle.ar_meaning.specs.FlatOf.{IsNumber};
ghost use Rattle.gts_core.specs.Copies.{IsCopy};
ghost use Rattle.ar_base.specs.Numbers.{VarId};
ghost use Rattle.gts_core.specs.View.{Views, net_of, numbered};
ghost use Rattle.gts_core.specs.Sound.{IsSound};
ghost use Rattle.gts_core.specs.Lawful.{IsLawful, kind_by_number};
ghost use Rattle.gts_core.specs.declared.system.Observer.{Observer};
ghost use Rattle.gts_core.specs.declared.system.GtsParts.{GtsParts};

/// Sound parts stand for exactly one system.
pub fn one_system()
    ensures some { (p : GtsParts) → IsSound p → (system : System ℕ) × Views p system }
    ensures one { (p : GtsParts) (a b : System ℕ) → Views p a → Views p b → a ≡ b }
{}

/// Numbered forms keep copies, and keep the numbers of a source's variables.
pub fn numbered_expressions<V>()
    ensures copies { (e f : Expr VarId) → IsCopy e f
        → Expr_renames (λ m n. m ≡ n) (numbered e) (numbered f) }
    ensures sources { (things : List V) (e : Expr V) (f : Expr VarId)
        → Renames (λ x y. Stands things y.n x) (out-Expr V e) (out-Expr VarId f)
        → Expr_renames (IsNumber things) e (numbered f) }
{}

/// The system of sound parts is lawful: its numbers are in range, its values are of their domains, and its assertions and
/// observers are typed.
pub fn lawful_systems()
    ensures net { (p : GtsParts) → IsSound p → IsLawful (net_of p) (kind_by_number p) }
    ensures observers { (p : GtsParts) (o : Observer) → IsSound p → IsOneOf p.observers.items o
        → HasKind (kind_by_number p) (out-Expr ℕ (numbered o.value)) o.kind }
{}
