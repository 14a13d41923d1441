//! The rules, and the earliest place at which a tree breaks one.

ghost use Rattle.std.specs.Prelude.{List};
ghost use Rattle.class_table.specs.Earliest.{IsEarliest};
ghost use Rattle.hierarchy.specs.Models.{RootedModel};
ghost use Rattle.hierarchy.specs.Units.{UnitPath};
ghost use Rattle.source_meaning.specs.Rules.{BreaksNaming, BreaksKinds, BreaksTargets};
ghost use Rattle.bind_scopes.specs.Scopes.{AreScopes, HasScopes};
ghost use Rattle.bind_names.specs.Breaking.{BreaksTree};

use crate::breaches::Rule;
use crate::member_rules::in_units;
use crate::value_rules::{in_observers, in_parameters, in_variables};
use ar_base::Place;
use bind_scopes::Scopes;
use class_table::earliest::earliest;

/// The earliest place at which something in the tree names nothing of the kind that is needed
/// (L10). Takes no memory.
pub fn first_misnamed_in<'a>(scopes: &'a Scopes<'a>) -> Option<Place>
    requires { HasScopes scopes.now }
    ensures { (m : RootedModel) (units : List UnitPath) → AreScopes m units scopes.now
        → IsEarliest (BreaksNaming m units) result }
{
    first_in(scopes, Rule::Names)
}

// The earliest place at which the tree breaks the rule.
fn first_in<'a>(scopes: &'a Scopes<'a>, rule: Rule) -> Option<Place>
    requires { HasScopes scopes.now }
    ensures { (m : RootedModel) (units : List UnitPath) → AreScopes m units scopes.now
        → IsEarliest (BreaksTree m units rule) result }
{
    let values = earliest(in_variables(scopes, rule), in_parameters(scopes, rule));
    let others = earliest(in_observers(scopes, rule), in_units(scopes, rule));
    earliest(values, others)
}

/// The earliest place at which an expression of the tree, or the right path of a `:=:`, has a wrong
/// kind (L11). Takes no memory.
pub fn first_mistyped_in<'a>(scopes: &'a Scopes<'a>) -> Option<Place>
    requires { HasScopes scopes.now }
    ensures { (m : RootedModel) (units : List UnitPath) → AreScopes m units scopes.now
        → IsEarliest (BreaksKinds m units) result }
{
    first_in(scopes, Rule::Kinds)
}

/// The earliest place at which an action or an assertion of the tree assigns or ties what it may
/// not (L13). Takes no memory.
pub fn first_misplaced_in<'a>(scopes: &'a Scopes<'a>) -> Option<Place>
    requires { HasScopes scopes.now }
    ensures { (m : RootedModel) (units : List UnitPath) → AreScopes m units scopes.now
        → IsEarliest (BreaksTargets m units) result }
{
    first_in(scopes, Rule::Targets)
}
