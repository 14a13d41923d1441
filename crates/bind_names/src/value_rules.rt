//! The values of variables and parameters and the expressions of observers, and where they break a
//! rule.

ghost use Rattle.std.specs.Prelude.{◌≡◌, IfSome, List, option_map};
ghost use Rattle.ar_base.specs.Lists.{Along, Stands};
ghost use Rattle.class_table.specs.Declaring.{Declared};
ghost use Rattle.class_table.specs.Members.{owned_at as declared_at};
ghost use Rattle.class_table.specs.TablesInside.{IsBodyOf, site_of};
ghost use Rattle.class_table.specs.Earliest.{IsEarliest};
ghost use Rattle.hierarchy.specs.Models.{RootedModel};
ghost use Rattle.hierarchy.specs.Units.{UnitPath, Thing};
ghost use Rattle.hierarchy.specs.Walks.{PassesTest, is_observer};
ghost use Rattle.hierarchy.specs.Listing.{variables, parameters, observers};
ghost use Rattle.hierarchy.specs.Tie.{IsParameterNode, IsPlainNode, HasAttribute};
ghost use Rattle.gts_core.specs.Sound.{kind_of_domain as kind_of_values};
ghost use Rattle.source_meaning.specs.Kinds.{IsOfKind};
ghost use Rattle.bind_scopes.specs.Scopes.{AreScopes, HasScopes};
ghost use Rattle.bind_names.specs.Breaking.{BreaksValueInForce, BreaksParameter, BreaksObserver, BreaksThing};
ghost use Rattle.bind_names.specs.Owning.{IsOwnScope, observed_in};
ghost use Rattle.bind_names.specs.Testing.{IsTested};

use crate::breaches::Rule;
use crate::expression_rules::in_expression;
use ar_base::Place;
use ar_syntax::{Member, RawExpr, TypeForm};
use bind_scopes::{Scope, Scopes, is_same_kind, is_same_value, kind_of_domain, written};
use class_table::earliest::earliest;
use class_table::{Classes, Owned, owned_at};
use hierarchy::{Attribute, MemNode, ParNode, Source, VarNode};
use typed_expr::ValueKind;

/// The type and the expression of the observer that stands there, where one does. Takes no memory.
pub fn observed_at(classes: &Classes, source: Source) -> Option<(TypeForm, &RawExpr)>
    ensures { (d : Declared) → Along IsBodyOf classes.now.bodies.items d.bodies
        → option_map (λ o. (o.0, o.1.now)) result
        ≡ observed_in (declared_at d (site_of (source.body, source.member))) }
{
    match owned_at(&classes.bodies, (source.body, source.member))? {
        Owned::Plain(Member::Observer(type_name, _, _, expr)) => Some((type_name.form, expr)),
        _ => None,
    }
}

// The earliest place at which the value breaks the rule, of which this kind is wanted; the scope is
// that of a value that its thing declares itself.
fn in_value<'a>(
    scopes: &'a Scopes<'a>,
    rule: Rule,
    own: Scope,
    kind: ValueKind,
    value: Attribute,
) -> Option<Place>
    requires { HasScopes scopes.now }
    ensures { (m : RootedModel) (units : List UnitPath) (t : Thing) → AreScopes m units scopes.now
        → IsOwnScope m units t own → HasAttribute m units t value → IsOfKind m t kind
        → IsEarliest (BreaksValueInForce m rule t) result }
{
    let scope = match value.source.setting {
        None => own,
        Some(_) => Scope::Constants,
    };
    match written(&scopes.tree.classes, value.source) {
        None => None,
        Some(expr) => in_expression(scopes, rule, value.from, scope, kind, expr),
    }
}

// What the value of a variable was tested for: the value, the kind that was wanted of it, and the earliest place at which
// it breaks the rule.
type Tested = (Attribute, ValueKind, Option<Place>);

// The test of the value of a variable, which is the last one where that was of the same value.
fn in_variable<'a>(
    scopes: &'a Scopes<'a>,
    rule: Rule,
    last: Option<Tested>,
    node: &VarNode,
) -> Tested
    requires { HasScopes scopes.now }
    ensures tested { IfSome last (IsTested scopes.now rule) → IsTested scopes.now rule result }
    ensures value { result.0 ≡ node.now.value }
    ensures kind { result.1 ≡ kind_of_values node.now.domain }
{
    let kind = kind_of_domain(&node.domain);
    match last {
        Some(test) if is_same_value(test.0, node.value) && is_same_kind(test.1, kind) => test,
        _ => {
            let place = in_value(scopes, rule, Scope::Constants, kind, node.value);
            (node.value, kind, place)
        }
    }
}

// The earliest place at which the value of a parameter, which stands here in the tree's list,
// breaks the rule.
fn in_parameter<'a>(scopes: &'a Scopes<'a>, rule: Rule, place: u32, node: &ParNode) -> Option<Place>
    requires { HasScopes scopes.now }
    ensures { (m : RootedModel) (units : List UnitPath) (t : Thing) → AreScopes m units scopes.now
        → Stands (parameters m units) place t → IsParameterNode m units t node.now
        → IsEarliest (BreaksParameter m rule t) result }
{
    if !scopes.is_read(place) {
        return None;
    }
    let kind = match &node.domain {
        Some(domain) => kind_of_domain(domain),
        None => ValueKind::Whole,
    };
    in_value(scopes, rule, Scope::Before(place), kind, node.value)
}

// The earliest place at which the expression of an observer breaks the rule.
fn in_observer<'a>(scopes: &'a Scopes<'a>, rule: Rule, node: &MemNode) -> Option<Place>
    requires { HasScopes scopes.now }
    ensures { (m : RootedModel) (units : List UnitPath) (t : Thing) → AreScopes m units scopes.now
        → IsPlainNode m units t node.now → PassesTest m is_observer t
        → IsEarliest (BreaksObserver m rule t) result }
{
    let (form, expr) = observed_at(&scopes.tree.classes, node.source)?;
    match scopes.kind_of_type(form) {
        None => None,
        Some(kind) => in_expression(scopes, rule, node.unit, Scope::Everything, kind, expr),
    }
}

/// The earliest place at which the value of some variable breaks the rule. A value that the names of one declaration share
/// is tested once.
pub(crate) fn in_variables<'a>(scopes: &'a Scopes<'a>, rule: Rule) -> Option<Place>
    requires { HasScopes scopes.now }
    ensures { (m : RootedModel) (units : List UnitPath) → AreScopes m units scopes.now
        → IsEarliest (BreaksThing (variables m units) (BreaksValueInForce m rule)) result }
{
    let mut found = None;
    let mut last = None;
    for node in &scopes.tree.variables {
        let test = in_variable(scopes, rule, last, node);
        found = earliest(found, test.2);
        last = Some(test);
    }
    found
}

/// The earliest place at which the value of some parameter breaks the rule.
pub(crate) fn in_parameters<'a>(scopes: &'a Scopes<'a>, rule: Rule) -> Option<Place>
    requires { HasScopes scopes.now }
    ensures { (m : RootedModel) (units : List UnitPath) → AreScopes m units scopes.now
        → IsEarliest (BreaksThing (parameters m units) (BreaksParameter m rule)) result }
{
    let mut found = None;
    for (place, node) in scopes.tree.parameters.iter().enumerate() {
        found = earliest(found, in_parameter(scopes, rule, place as u32, node));
    }
    found
}

/// The earliest place at which the expression of some observer breaks the rule.
pub(crate) fn in_observers<'a>(scopes: &'a Scopes<'a>, rule: Rule) -> Option<Place>
    requires { HasScopes scopes.now }
    ensures { (m : RootedModel) (units : List UnitPath) → AreScopes m units scopes.now
        → IsEarliest (BreaksThing (observers m units) (BreaksObserver m rule)) result }
{
    let mut found = None;
    for node in &scopes.tree.observers {
        found = earliest(found, in_observer(scopes, rule, node));
    }
    found
}
