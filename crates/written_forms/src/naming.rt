//! What paths name, as expressions ask it.

ghost use Rattle.std.specs.Prelude.{◌≡◌, Option};
ghost use Rattle.ar_syntax.specs.declared.paths.Path.{Path};
ghost use Rattle.typed_expr.specs.declared.expr.ValueKind.{ValueKind};
ghost use Rattle.written_forms.specs.declared.naming.Leaf.{Leaf};

use ar_base::VarId;
use ar_syntax::Path;
use domains::Value;
use typed_expr::ValueKind;

/// The kinds of what paths name where an expression stands.
pub trait Naming {
    /// What is to hold where kinds are asked for.
    ghost is_sound: { Self → Type 0 };

    /// The kind of what the path names, or none where it names nothing that it may name.
    ghost kind_at: { Self → Path → Option ValueKind };

    /// The kind of what the path names, or None where it names nothing that it may name.
    fn kind(&self, path: &Path) -> Option<ValueKind>
        requires { is_sound self.now }
        ensures { result ≡ kind_at self.now path.now };
}

/// What a path stands for in an expression by numbers.
#[derive(Clone, Copy)]
pub enum Leaf {
    /// A variable.
    Variable(VarId),
    /// A value: that of a symbol or of a parameter.
    Constant(Value),
}

/// What paths stand for where an expression stands.
pub trait Leaves {
    /// What is to hold where leaves are asked for.
    ghost is_sound: { Self → Type 0 };

    /// What the path stands for.
    ghost leaf_at: { Self → Path → Leaf };

    /// What the path stands for.
    fn leaf(&self, path: &Path) -> Leaf
        requires { is_sound self.now }
        ensures { result ≡ leaf_at self.now path.now };
}
