//! Values as facts.

ghost use Rattle.std.specs.Prelude.{◌≡◌};
ghost use Rattle.typed_expr.specs.Rows.{first_of_row, known_row_at};

use domains::Value;

/// The first of the values that are known of a variable; false where there is none. Takes no memory.
pub fn first_of(values: &[Value]) -> Value
    ensures { result ≡ first_of_row values.now }
{
    match values.first() {
        Some(value) => *value,
        None => Value::Truth(false),
    }
}

/// The values known of the variable of this number, where there is a row for each; none past the end.
/// Takes no memory.
pub fn row_at(rows: &[Vec<Value>], n: u32) -> &[Value]
    ensures { result.now ≡ known_row_at rows.now n }
{
    match rows.get(n as usize) {
        Some(row) => row,
        None => &[],
    }
}
