//! What the variables of an expression stand for.

ghost use Rattle.std.specs.Prelude.{◌≡◌, List};
ghost use Rattle.domains.specs.declared.Value.{Value};
ghost use Rattle.typed_expr.specs.declared.expr.ValueKind.{ValueKind};

use crate::expr::ValueKind;
use domains::Value;

/// The value, the facts and the kind of each variable.
pub trait Env<V> {
    /// The one value of a variable.
    ghost value_at: { Self → V → Value };

    /// The values that are facts of a variable, in the order of values.
    ghost facts_at: { Self → V → List Value };

    /// The kind of a variable's values.
    ghost kind_at: { Self → V → ValueKind };

    /// The one value of the variable.
    fn value(&self, v: &V) -> Value
        ensures { result ≡ value_at self.now v.now };

    /// The facts of the variable, in the order of values.
    fn facts(&self, v: &V) -> &[Value]
        ensures { result.now ≡ facts_at self.now v.now };

    /// The kind of the variable's values.
    fn kind(&self, v: &V) -> ValueKind
        ensures { result ≡ kind_at self.now v.now };
}
