//! Where expressions have a wrong kind.

ghost use Rattle.std.specs.Prelude.{◌≡◌, ◌++◌, ◌↔◌, IsTrue};
ghost use Rattle.ar_syntax.specs.declared.expressions.RawExpr.{RawExpr};
ghost use Rattle.ar_syntax.specs.declared.expressions.RawForm.TheOpen.{Real as RealForm};
ghost use Rattle.class_table.specs.Earliest.{IsEarliest};
ghost use Rattle.written_forms.specs.FormsInside.{IsFormOf};
ghost use Rattle.written_forms.specs.Operands.{level_of, HasOperands, OfKind, each_wanting, terms, tests, branches, is_equality};
ghost use Rattle.written_forms.specs.Wrong.{IsMistyped};
ghost use Rattle.written_forms.specs.WrongInside.{NamesKind, Among, MistypedOperand, demanding, AreTwoKinds, AreWanted, IsWrongItself};

use crate::kinds::form_kind;
use crate::naming::Naming;
use ar_base::Place;
use ar_syntax::{RawExpr, RawForm, RawRelation};
use class_table::earliest::earliest;
use typed_expr::ValueKind;

/// The earliest place in the expression where something has a wrong kind, where this kind is wanted
/// of the whole, or any.
///
/// An expression of a wrong kind stands at its first token. A real has a wrong kind everywhere, and so
/// has an empty list of operands, which no text has. Takes no memory.
#[cycle(mistyped)]
pub fn first_mistyped<N: Naming>(
    expr: &RawExpr,
    want: Option<ValueKind>,
    naming: &N,
) -> Option<Place>
    requires { N.is_sound naming.now }
    ensures { IsEarliest (IsMistyped (NamesKind (N.kind_at naming.now))
        (demanding want) expr.now) result }
{
    let itself = wrong_itself(expr, want, naming);
    match &expr.form {
        RawForm::Truth(_) => itself,
        RawForm::Whole(_) => itself,
        RawForm::Real => itself,
        RawForm::Path(_) => itself,
        RawForm::Not(a) => earliest(itself, first_mistyped(a, Some(ValueKind::Truth), naming)),
        RawForm::Minus(a) => earliest(itself, first_mistyped(a, Some(ValueKind::Whole), naming)),
        RawForm::Compare(relation, a, b) => {
            let (left, right) = wanted_sides(*relation, a, naming);
            let first = first_mistyped(a, left, naming);
            earliest(itself, earliest(first, first_mistyped(b, right, naming)))
        }
        RawForm::Sum(parts) => earliest(itself, wrong_terms(parts, naming)),
        RawForm::All(es) => earliest(itself, wrong_in(es, ValueKind::Truth, naming)),
        RawForm::Any(es) => earliest(itself, wrong_in(es, ValueKind::Truth, naming)),
        RawForm::Product(es) => earliest(itself, wrong_in(es, ValueKind::Whole, naming)),
        RawForm::Least(es) => earliest(itself, wrong_in(es, ValueKind::Whole, naming)),
        RawForm::Greatest(es) => earliest(itself, wrong_in(es, ValueKind::Whole, naming)),
        RawForm::Count(es) => earliest(itself, wrong_in(es, ValueKind::Truth, naming)),
        RawForm::Choose(cases, other) => {
            let kind = form_kind(expr, naming);
            let first = wrong_cases(cases, kind, naming);
            earliest(itself, earliest(first, first_mistyped(other, kind, naming)))
        }
    }
}

// The place of the expression, where its own kind is wrong, it is a real, or it has an empty list of
// operands.
fn wrong_itself<N: Naming>(expr: &RawExpr, want: Option<ValueKind>, naming: &N) -> Option<Place>
    requires { N.is_sound naming.now }
    ensures { IsEarliest (IsWrongItself (NamesKind (N.kind_at naming.now))
        (demanding want) expr.now) result }
{
    if is_real(expr) {
        return Some(expr.at);
    }
    if !has_operands(expr) {
        return Some(expr.at);
    }
    if differ(form_kind(expr, naming), want) {
        Some(expr.at)
    } else {
        None
    }
}

// The earliest wrong place in these operands, of which one kind is wanted.
#[cycle(mistyped)]
fn wrong_in<N: Naming>(es: &[RawExpr], kind: ValueKind, naming: &N) -> Option<Place>
    requires { N.is_sound naming.now }
    ensures { IsEarliest (Among (MistypedOperand (NamesKind (N.kind_at naming.now))) (each_wanting
        (OfKind kind) es.now)) result }
{
    let mut found = None;
    for e in es {
        found = earliest(found, first_mistyped(e, Some(kind), naming));
    }
    found
}

// The earliest wrong place in these terms of a sum.
#[cycle(mistyped)]
fn wrong_terms<N: Naming>(parts: &[(bool, RawExpr)], naming: &N) -> Option<Place>
    requires { N.is_sound naming.now }
    ensures { IsEarliest (Among (MistypedOperand (NamesKind (N.kind_at naming.now)))
        (terms parts.now)) result }
{
    let mut found = None;
    for (_, e) in parts {
        found = earliest(found, first_mistyped(e, Some(ValueKind::Whole), naming));
    }
    found
}

// The earliest wrong place in the tests and values of these cases, where the values have the kind
// of the first branch.
#[cycle(mistyped)]
fn wrong_cases<N: Naming>(
    cases: &[(RawExpr, RawExpr)],
    kind: Option<ValueKind>,
    naming: &N,
) -> Option<Place>
    requires { N.is_sound naming.now }
    ensures { (first : RawExpr) → IsFormOf (NamesKind (N.kind_at naming.now)) (level_of first) kind
        → IsEarliest (Among (MistypedOperand (NamesKind (N.kind_at naming.now)))
        (tests cases.now ++ branches first cases.now)) result }
{
    let mut found = None;
    for (test, value) in cases {
        let truth = Some(ValueKind::Truth);
        let here = earliest(
            first_mistyped(test, truth, naming),
            first_mistyped(value, kind, naming),
        );
        found = earliest(found, here);
    }
    found
}

// Whether the expression is a real.
fn is_real(expr: &RawExpr) -> bool
    ensures { IsTrue result ↔ (level_of expr.now ≡ RealForm) }
{
    matches!(&expr.form, RawForm::Real)
}

// Whether the expression's list of operands, where it has one, is not empty.
fn has_operands(expr: &RawExpr) -> bool
    ensures { IsTrue result ↔ HasOperands (level_of expr.now) }
{
    match &expr.form {
        RawForm::Truth(_) => true,
        RawForm::Whole(_) => true,
        RawForm::Real => true,
        RawForm::Path(_) => true,
        RawForm::Not(_) => true,
        RawForm::Minus(_) => true,
        RawForm::All(es) => !es.is_empty(),
        RawForm::Any(es) => !es.is_empty(),
        RawForm::Compare(_, _, _) => true,
        RawForm::Sum(parts) => !parts.is_empty(),
        RawForm::Product(es) => !es.is_empty(),
        RawForm::Least(es) => !es.is_empty(),
        RawForm::Greatest(es) => !es.is_empty(),
        RawForm::Count(es) => !es.is_empty(),
        RawForm::Choose(cases, _) => !cases.is_empty(),
    }
}

// The kinds that are wanted of the two sides of a comparison, by the kind of the first.
fn wanted_sides<N: Naming>(
    relation: RawRelation,
    a: &RawExpr,
    naming: &N,
) -> (Option<ValueKind>, Option<ValueKind>)
    requires { N.is_sound naming.now }
    ensures { AreWanted (NamesKind (N.kind_at naming.now)) (is_equality relation)
        (level_of a.now) result }
{
    match relation {
        RawRelation::Equal | RawRelation::Differs => (None, form_kind(a, naming)),
        _ => (Some(ValueKind::Whole), Some(ValueKind::Whole)),
    }
}

/// Whether both kinds are told and they differ. Takes no memory.
pub fn differ(kind: Option<ValueKind>, want: Option<ValueKind>) -> bool
    ensures { IsTrue result ↔ AreTwoKinds kind want }
{
    match (kind, want) {
        (Some(one), Some(other)) => !is_same(one, other),
        _ => false,
    }
}

// Whether the kinds are the same.
fn is_same(one: ValueKind, other: ValueKind) -> bool
    ensures { IsTrue result ↔ (one ≡ other) }
{
    match (one, other) {
        (ValueKind::Truth, ValueKind::Truth) => true,
        (ValueKind::Whole, ValueKind::Whole) => true,
        (ValueKind::Symbol, ValueKind::Symbol) => true,
        _ => false,
    }
}
