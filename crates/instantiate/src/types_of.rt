//! The types of declarations.

ghost use Rattle.std.specs.Prelude.{◌≡◌, Some};
ghost use Rattle.instantiate.specs.Values.{declared_type};

use ar_syntax::{Member, TypeForm};
use class_table::Owned;

/// The type of a member that is a declaration.
pub(crate) fn type_of(owned: &Owned) -> Option<TypeForm>
    ensures { result ≡ declared_type (Some owned.now) }
{
    match owned {
        Owned::Nested(_, _, _) => None,
        Owned::Plain(member) => match member {
            Member::Declare(type_name, _, _) => Some(type_name.form),
            _ => None,
        },
    }
}
