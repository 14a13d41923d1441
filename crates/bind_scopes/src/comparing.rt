//! Whether two written values, or two kinds, are one.

ghost use Rattle.std.specs.Prelude.{◌≡◌, IsTrue};

use hierarchy::Attribute;
use typed_expr::ValueKind;

/// Whether two values are written at one place and read in one unit. Takes no memory.
pub fn is_same_value(first: Attribute, second: Attribute) -> bool
    ensures { IsTrue result → first ≡ second }
{
    first.from.n == second.from.n
        && first.source.body.n == second.source.body.n
        && first.source.member == second.source.member
        && first.source.setting == second.source.setting
}

/// Whether two kinds of values are one. Takes no memory.
pub fn is_same_kind(first: ValueKind, second: ValueKind) -> bool
    ensures { IsTrue result → first ≡ second }
{
    match (first, second) {
        (ValueKind::Truth, ValueKind::Truth) => true,
        (ValueKind::Whole, ValueKind::Whole) => true,
        (ValueKind::Symbol, ValueKind::Symbol) => true,
        _ => false,
    }
}
