//! Relations between values, and between values of two sets.

ghost use Rattle.std.specs.Prelude.{◌≡◌, ◌↔◌, IsTrue, not, [], ◌∷◌, true};
ghost use Rattle.domains.specs.Values.{IsAscending};
ghost use Rattle.domains.specs.declared.Value.{Value};
ghost use Rattle.typed_expr.specs.Values.{is_related};
ghost use Rattle.typed_expr.specs.Evaluating.{SomeRelated};
ghost use Rattle.typed_expr.specs.declared.expr.Relation.TheVariants.{Equal, Less, AtMost};

use crate::expr::Relation;
use crate::sets::either;
use crate::value_set::{before, place_of};
use domains::Value;

// Whether two values are so related.
pub(crate) fn related(relation: Relation, a: Value, b: Value) -> bool
    ensures { result ≡ is_related relation a b }
{
    match relation {
        Relation::Equal => !before(a, b) && !before(b, a),
        Relation::Differs => before(a, b) || before(b, a),
        Relation::Less => before(a, b),
        Relation::AtMost => !before(b, a),
        Relation::More => before(b, a),
        Relation::AtLeast => !before(a, b),
    }
}

// Whether a value of each list are so related, or are not, as is wanted. Both lists ascend, so that an order is decided by
// their ends, and an equal value is looked up.
pub(crate) fn some_related(
    relation: Relation,
    left: &[Value],
    right: &[Value],
    wanted: bool,
) -> bool
    requires left { IsAscending left.now }
    requires right { IsAscending right.now }
    ensures { IsTrue result ↔ SomeRelated relation left.now right.now wanted }
{
    if wanted {
        some_so(relation, left, right)
    } else {
        some_so(opposite(relation), left, right)
    }
}

// The relation of the values that are not so related.
fn opposite(relation: Relation) -> Relation
    ensures { (a b : Value) → is_related result a b ≡ not (is_related relation a b) }
{
    match relation {
        Relation::Equal => Relation::Differs,
        Relation::Differs => Relation::Equal,
        Relation::Less => Relation::AtLeast,
        Relation::AtMost => Relation::More,
        Relation::More => Relation::AtMost,
        Relation::AtLeast => Relation::Less,
    }
}

// Whether a value of each list are so related.
fn some_so(relation: Relation, left: &[Value], right: &[Value]) -> bool
    requires left { IsAscending left.now }
    requires right { IsAscending right.now }
    ensures { IsTrue result ↔ SomeRelated relation left.now right.now true }
{
    match relation {
        Relation::Equal => some_shared(left, right),
        Relation::Differs => either(some_before(left, right), some_before(right, left)),
        Relation::Less => some_before(left, right),
        Relation::AtMost => some_not_after(left, right),
        Relation::More => some_before(right, left),
        Relation::AtLeast => some_not_after(right, left),
    }
}

// Whether a value of the first list comes before one of the second: its least before the other's greatest.
fn some_before(first: &[Value], second: &[Value]) -> bool
    requires first { IsAscending first.now }
    requires second { IsAscending second.now }
    ensures { IsTrue result ↔ SomeRelated Less first.now second.now true }
{
    let Some(least) = first.first() else {
        return false;
    };
    let Some(greatest) = second.last() else {
        return false;
    };
    before(*least, *greatest)
}

// Whether a value of the first list does not come after one of the second.
fn some_not_after(first: &[Value], second: &[Value]) -> bool
    requires first { IsAscending first.now }
    requires second { IsAscending second.now }
    ensures { IsTrue result ↔ SomeRelated AtMost first.now second.now true }
{
    let Some(least) = first.first() else {
        return false;
    };
    let Some(greatest) = second.last() else {
        return false;
    };
    !before(*greatest, *least)
}

// Whether both lists have a value.
fn some_shared(left: &[Value], right: &[Value]) -> bool
    requires { IsAscending right.now }
    ensures { IsTrue result ↔ SomeRelated Equal left.now right.now true }
{
    for v in left {
        if is_among(*v, right) {
            return true;
        }
    }
    false
}

// Whether the value is in the list.
fn is_among(v: Value, values: &[Value]) -> bool
    requires { IsAscending values.now }
    ensures { IsTrue result ↔ SomeRelated Equal (v ∷ []) values.now true }
{
    match place_of(v, values) {
        Some(_) => false,
        None => true,
    }
}
