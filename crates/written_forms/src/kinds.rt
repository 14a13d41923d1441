//! The kinds of expressions by their forms.

ghost use Rattle.written_forms.specs.Operands.{level_of};
ghost use Rattle.written_forms.specs.FormsInside.{IsFormOf};
ghost use Rattle.written_forms.specs.WrongInside.{NamesKind};

use crate::naming::Naming;
use ar_syntax::{RawExpr, RawForm};
use typed_expr::ValueKind;

/// The kind of an expression by its form, or None where it is that of a path that names nothing.
///
/// A real counts as a whole number, and a choice has the kind of its first branch. Takes no memory.
#[cycle(form_kind)]
pub fn form_kind<N: Naming>(expr: &RawExpr, naming: &N) -> Option<ValueKind>
    requires { N.is_sound naming.now }
    ensures { IsFormOf (NamesKind (N.kind_at naming.now)) (level_of expr.now) result }
{
    match &expr.form {
        RawForm::Path(path) => naming.kind(path),
        RawForm::Choose(cases, other) => match cases.first() {
            Some((_, value)) => form_kind(value, naming),
            None => form_kind(other, naming),
        },
        RawForm::Truth(_) => Some(ValueKind::Truth),
        RawForm::Whole(_) => Some(ValueKind::Whole),
        RawForm::Real => Some(ValueKind::Whole),
        RawForm::Not(_) => Some(ValueKind::Truth),
        RawForm::Minus(_) => Some(ValueKind::Whole),
        RawForm::All(_) => Some(ValueKind::Truth),
        RawForm::Any(_) => Some(ValueKind::Truth),
        RawForm::Compare(_, _, _) => Some(ValueKind::Truth),
        RawForm::Sum(_) => Some(ValueKind::Whole),
        RawForm::Product(_) => Some(ValueKind::Whole),
        RawForm::Least(_) => Some(ValueKind::Whole),
        RawForm::Greatest(_) => Some(ValueKind::Whole),
        RawForm::Count(_) => Some(ValueKind::Whole),
    }
}
