//! The folds, a step at a time.

ghost use Rattle.std.specs.Prelude.{◌≡◌, []};
ghost use Rattle.domains.specs.declared.Value.TheVariants.{Whole};
ghost use Rattle.typed_expr.specs.Folds.{fold_of, next_of};

use domains::{Value, add, multiply, subtract};

// How an operand goes into a fold: a part of a sum, added or subtracted, or an operand of another
// fold.
#[derive(Clone, Copy)]
pub(crate) enum Step {
    Part(bool),
    Times,
    Lesser,
    Greater,
    Counted,
}

// The fold of no operand.
pub(crate) fn start(step: Step) -> i64
    ensures { result ≡ fold_of step [] }
{
    match step {
        Step::Part(_) => 0,
        Step::Times => 1,
        Step::Lesser => 0,
        Step::Greater => 0,
        Step::Counted => 0,
    }
}

// The fold with one more operand.
pub(crate) fn next(step: Step, first: bool, so_far: i64, v: Value) -> i64
    ensures { result ≡ next_of step first so_far v }
{
    match step {
        Step::Part(plus) => if plus {
            add(so_far, v.whole())
        } else {
            subtract(so_far, v.whole())
        },
        Step::Times => multiply(so_far, v.whole()),
        Step::Lesser => if first {
            v.whole()
        } else {
            so_far.min(v.whole())
        },
        Step::Greater => if first {
            v.whole()
        } else {
            so_far.max(v.whole())
        },
        Step::Counted => if v.truth() { add(so_far, 1) } else { so_far },
    }
}

// The same as a value.
pub(crate) fn start_value(step: Step) -> Value
    ensures { result ≡ Whole (fold_of step []) }
{
    Value::Whole(start(step))
}
