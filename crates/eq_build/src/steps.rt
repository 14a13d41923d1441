//! What two values make.

ghost use Rattle.std.specs.Prelude.{◌≡◌};
ghost use Rattle.domains.specs.Values.{is_before, truth_of, whole_of};
ghost use Rattle.eq_build.specs.Entries.{result_of};

use domains::{Value, add, multiply, subtract};
use typed_expr::Relation;

/// What is made of two values: a step of a fold, where the first is what the fold has come to, or a comparison.
#[derive(Clone, Copy)]
pub enum Step {
    /// A part of a sum is added, or subtracted.
    Part(bool),
    /// A factor of a product.
    Times,
    /// The lesser number.
    Lesser,
    /// The greater number.
    Greater,
    /// One more, where the operand is true.
    Counted,
    /// Whether the two are so related.
    Compared(Relation),
}

// What the step makes of the values.
pub(crate) fn result_of(step: Step, v: Value, w: Value) -> Value
    ensures { result ≡ result_of step v w }
{
    match step {
        Step::Part(plus) => Value::Whole(if plus {
            add(whole(v), whole(w))
        } else {
            subtract(whole(v), whole(w))
        }),
        Step::Times => Value::Whole(multiply(whole(v), whole(w))),
        Step::Lesser => Value::Whole(whole(v).min(whole(w))),
        Step::Greater => Value::Whole(whole(v).max(whole(w))),
        Step::Counted => Value::Whole(if truth(w) { add(whole(v), 1) } else { whole(v) }),
        Step::Compared(relation) => Value::Truth(match relation {
            Relation::Equal => !before(v, w) && !before(w, v),
            Relation::Differs => before(v, w) || before(w, v),
            Relation::Less => before(v, w),
            Relation::AtMost => !before(w, v),
            Relation::More => before(w, v),
            Relation::AtLeast => !before(v, w),
        }),
    }
}

// The truth of a truth value.
pub(crate) fn truth(v: Value) -> bool
    ensures { result ≡ truth_of v }
{
    match v {
        Value::Truth(b) => b,
        Value::Whole(_) => false,
        Value::Symbol(_) => false,
    }
}

// The number of a whole number.
fn whole(v: Value) -> i64
    ensures { result ≡ whole_of v }
{
    match v {
        Value::Truth(_) => 0,
        Value::Whole(n) => n,
        Value::Symbol(_) => 0,
    }
}

// Whether a value comes before another.
pub(crate) fn before(v: Value, w: Value) -> bool
    ensures { result ≡ is_before v w }
{
    match (v, w) {
        (Value::Truth(a), Value::Truth(b)) => !a && b,
        (Value::Truth(_), _) => true,
        (Value::Whole(_), Value::Truth(_)) => false,
        (Value::Whole(a), Value::Whole(b)) => a < b,
        (Value::Whole(_), Value::Symbol(_)) => true,
        (Value::Symbol(a), Value::Symbol(b)) => a < b,
        (Value::Symbol(_), _) => false,
    }
}
