//! Paths in expressions that name nothing.

ghost use Rattle.std.specs.Prelude.{◌++◌};
ghost use Rattle.ar_syntax.specs.declared.expressions.RawExpr.{RawExpr};
ghost use Rattle.class_table.specs.Earliest.{IsEarliest};
ghost use Rattle.written_forms.specs.Operands.{level_of, Demand, each_wanting, terms, tests, branches};
ghost use Rattle.written_forms.specs.Wrong.{IsMisnamed};
ghost use Rattle.written_forms.specs.WrongInside.{IsNamedPath, Among, MisnamedOperand};

use crate::naming::Naming;
use ar_base::Place;
use ar_syntax::{RawExpr, RawForm};
use class_table::earliest::earliest;

/// The earliest place of a path in the expression that names nothing that it may name. Takes no
/// memory.
#[cycle(misnamed)]
pub fn first_misnamed<N: Naming>(expr: &RawExpr, naming: &N) -> Option<Place>
    requires { N.is_sound naming.now }
    ensures { IsEarliest (IsMisnamed (IsNamedPath (N.kind_at naming.now)) (level_of expr.now)) result }
{
    match &expr.form {
        RawForm::Truth(_) => None,
        RawForm::Whole(_) => None,
        RawForm::Real => None,
        RawForm::Path(path) => match naming.kind(path) {
            Some(_) => None,
            None => Some(path.at),
        },
        RawForm::Not(a) => first_misnamed(a, naming),
        RawForm::Minus(a) => first_misnamed(a, naming),
        RawForm::All(es) => misnamed_in(es, naming),
        RawForm::Any(es) => misnamed_in(es, naming),
        RawForm::Compare(_, a, b) => earliest(first_misnamed(a, naming), first_misnamed(b, naming)),
        RawForm::Sum(parts) => misnamed_terms(parts, naming),
        RawForm::Product(es) => misnamed_in(es, naming),
        RawForm::Least(es) => misnamed_in(es, naming),
        RawForm::Greatest(es) => misnamed_in(es, naming),
        RawForm::Count(es) => misnamed_in(es, naming),
        RawForm::Choose(cases, other) => {
            earliest(misnamed_cases(cases, naming), first_misnamed(other, naming))
        }
    }
}

// The earliest such place in these operands.
#[cycle(misnamed)]
fn misnamed_in<N: Naming>(es: &[RawExpr], naming: &N) -> Option<Place>
    requires { N.is_sound naming.now }
    ensures { (d : Demand)
        → IsEarliest (Among (MisnamedOperand (IsNamedPath (N.kind_at naming.now)))
        (each_wanting d es.now)) result }
{
    let mut found = None;
    for e in es {
        found = earliest(found, first_misnamed(e, naming));
    }
    found
}

// The earliest such place in these terms of a sum.
#[cycle(misnamed)]
fn misnamed_terms<N: Naming>(parts: &[(bool, RawExpr)], naming: &N) -> Option<Place>
    requires { N.is_sound naming.now }
    ensures { IsEarliest (Among (MisnamedOperand (IsNamedPath (N.kind_at naming.now)))
        (terms parts.now)) result }
{
    let mut found = None;
    for (_, e) in parts {
        found = earliest(found, first_misnamed(e, naming));
    }
    found
}

// The earliest such place in the tests and values of these cases.
#[cycle(misnamed)]
fn misnamed_cases<N: Naming>(cases: &[(RawExpr, RawExpr)], naming: &N) -> Option<Place>
    requires { N.is_sound naming.now }
    ensures { (first : RawExpr)
        → IsEarliest (Among (MisnamedOperand (IsNamedPath (N.kind_at naming.now)))
        (tests cases.now ++ branches first cases.now)) result }
{
    let mut found = None;
    for (test, value) in cases {
        let here = earliest(first_misnamed(test, naming), first_misnamed(value, naming));
        found = earliest(found, here);
    }
    found
}
