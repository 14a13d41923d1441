//! Values outside their domains.

ghost use Rattle.std.specs.Prelude.{◌↔◌, IsTrue, List};
ghost use Rattle.ar_base.specs.Lists.{Along};
ghost use Rattle.domains.specs.Domains.{Holds};
ghost use Rattle.class_table.specs.Earliest.{IsEarliest};
ghost use Rattle.hierarchy.specs.Models.{RootedModel};
ghost use Rattle.hierarchy.specs.Units.{UnitPath, Thing};
ghost use Rattle.hierarchy.specs.Listing.{variables, parameters};
ghost use Rattle.hierarchy.specs.Tie.{HasAttribute};
ghost use Rattle.source_meaning.specs.Tested.{IsReadable};
ghost use Rattle.bind_scopes.specs.Scopes.{AreScopes};
ghost use Rattle.bind_names.specs.Values.{IsValue, IsParameterValue, IsDomainAt, BreaksAs, BreaksOneValue};

use ar_base::Place;
use bind_scopes::{Scopes, written};
use class_table::earliest::earliest;
use domains::{Domain, Value};
use gts_core::value_at;
use hierarchy::Attribute;

/// The earliest place of a value of a variable that is outside its domain.
pub(crate) fn outside_variables(scopes: &Scopes<'_>, values: &[Value]) -> Option<Place>
    ensures { (m : RootedModel) (units : List UnitPath) → AreScopes m units scopes.now
        → Along (IsValue m) (variables m units) values.now
        → IsEarliest (BreaksOneValue m units (variables m units)) result }
{
    let mut found = None;
    for (place, node) in scopes.tree.variables.iter().enumerate() {
        found = earliest(
            found,
            outside(scopes, &node.domain, value_at(values, place), node.value),
        );
    }
    found
}

// Whether the domain has the value.
fn holds(domain: &Domain, value: Value) -> bool
    ensures { IsTrue result ↔ Holds domain.now value }
{
    match (domain, value) {
        (Domain::Boolean, Value::Truth(_)) => true,
        (Domain::Symbols(symbols), Value::Symbol(symbol)) => symbols.contains(&symbol),
        (Domain::Range(low, high), Value::Whole(number)) => *low <= number && number <= *high,
        _ => false,
    }
}

// The place of the value of what has this attribute, where the value is outside the domain.
fn outside(
    scopes: &Scopes<'_>,
    domain: &Domain,
    value: Value,
    attribute: Attribute,
) -> Option<Place>
    ensures { (m : RootedModel) (units : List UnitPath) (t : Thing) → AreScopes m units scopes.now
        → IsReadable m units t → HasAttribute m units t attribute → IsValue m t value
        → IsDomainAt m t domain.now → IsEarliest (BreaksAs m units t) result }
{
    if holds(domain, value) {
        return None;
    }
    match written(&scopes.tree.classes, attribute.source) {
        Some(expr) => Some(expr.at),
        None => None,
    }
}

/// The earliest place of a value of a parameter that is outside its domain.
pub(crate) fn outside_parameters(scopes: &Scopes<'_>, values: &[Value]) -> Option<Place>
    ensures { (m : RootedModel) (units : List UnitPath) → AreScopes m units scopes.now
        → Along (IsParameterValue m) (parameters m units) values.now
        → IsEarliest (BreaksOneValue m units (parameters m units)) result }
{
    let mut found = None;
    for (place, node) in scopes.tree.parameters.iter().enumerate() {
        if let Some(domain) = &node.domain {
            let breaking = outside(scopes, domain, value_at(values, place), node.value);
            found = earliest(found, breaking);
        }
    }
    found
}
