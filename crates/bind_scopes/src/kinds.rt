//! The kinds of the values of domains.

ghost use Rattle.std.specs.Prelude.{◌≡◌};
ghost use Rattle.gts_core.specs.Sound.{kind_of_domain as kind_of_values};

use domains::Domain;
use typed_expr::ValueKind;

/// The kind of the values of a domain. Takes no memory.
pub fn kind_of_domain(domain: &Domain) -> ValueKind
    ensures { result ≡ kind_of_values domain.now }
{
    match domain {
        Domain::Boolean => ValueKind::Truth,
        Domain::Symbols(_) => ValueKind::Symbol,
        Domain::Range(_, _) => ValueKind::Whole,
    }
}
