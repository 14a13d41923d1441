//! The domains of variables and parameters.

ghost use Rattle.std.specs.Prelude.{IfOk};
ghost use Rattle.class_table.specs.Declaring.{Declared};
ghost use Rattle.class_table.specs.TablesInside.{HoldsDeclared};
ghost use Rattle.unit_rules.specs.TypingInside.{KnowsPlaces};
ghost use Rattle.instantiate.specs.Values.{HasDomainIf};

use ar_base::Memory;
use ar_syntax::TypeForm;
use class_table::{Classes, TypeBody};
use domains::Domain;
use unit_rules::TypePlaces;

/// The domain of a type, as far as it has one: `Integer` and a class have none.
pub(crate) fn domain_of(
    classes: &Classes,
    places: &TypePlaces,
    form: TypeForm,
) -> Result<Option<Domain>, Memory>
    ensures { (d : Declared) → HoldsDeclared d classes.now → KnowsPlaces classes.now.types.items places.now
        → IfOk result (HasDomainIf d form) }
{
    match form {
        TypeForm::Boolean => Ok(Some(Domain::Boolean)),
        TypeForm::Integer => Ok(None),
        TypeForm::Named(name) => match places.find(&classes.types, name) {
            Some(TypeBody::Domain(domain)) => Ok(Some(domain.copy()?)),
            Some(TypeBody::Class(_)) => Ok(None),
            None => Ok(None),
        },
    }
}
