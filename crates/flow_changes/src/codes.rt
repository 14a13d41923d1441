//! Values as numbers by their domain.

ghost use Rattle.std.specs.Prelude.{◌≡◌};
ghost use Rattle.domains.specs.Domains.{IsDomain};
ghost use Rattle.flow_changes.specs.Codes.{coded, decoded};

use domains::{Domain, Value};

// The number that stands for a value of the domain.
pub(crate) fn code_of(domain: &Domain, value: Value) -> u32
    requires { IsDomain domain.now }
    ensures { result ≡ coded domain.now value }
{
    match (domain, value) {
        (Domain::Boolean, Value::Truth(b)) => u32::from(b),
        (Domain::Symbols(_), Value::Symbol(s)) => s,
        (Domain::Range(low, high), Value::Whole(n)) => {
            if *low <= n && n <= *high {
                (n - *low) as u32
            } else {
                0
            }
        }
        _ => 0,
    }
}

// The value of the domain that the number stands for.
pub(crate) fn value_of(domain: &Domain, code: u32) -> Value
    requires { IsDomain domain.now }
    ensures { result ≡ decoded domain.now code }
{
    match domain {
        Domain::Boolean => Value::Truth(code != 0),
        Domain::Symbols(_) => Value::Symbol(code),
        Domain::Range(low, high) => {
            let most = (*high - *low) as u32;
            Value::Whole(*low + i64::from(code.min(most)))
        }
    }
}
