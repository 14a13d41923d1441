//! The values of parameters and variables, computed one after the other.

ghost use Rattle.std.specs.Prelude.{false, [], List, IfOk, OnOk};
ghost use Rattle.ar_base.specs.Lists.{Along};
ghost use Rattle.domains.specs.declared.Value.TheVariants.{Truth};
ghost use Rattle.typed_expr.specs.declared.expr.ValueKind.TheVariants.{Truth as TruthKind};
ghost use Rattle.hierarchy.specs.Models.{RootedModel};
ghost use Rattle.hierarchy.specs.Units.{UnitPath};
ghost use Rattle.hierarchy.specs.Listing.{variables, parameters as parameters_of};
ghost use Rattle.bind_scopes.specs.Scopes.{AreScopes, HasScopes};
ghost use Rattle.bind_names.specs.Known.{IsScopeKnown, AreKnown};
ghost use Rattle.bind_names.specs.Values.{AreNamesKept, IsValue, IsParameterValue};

use crate::leaves::UnitLeaves;
use ar_base::{Memory, VarId};
use ar_syntax::RawExpr;
use bind_scopes::{Scopes, is_same_value, written};
use domains::Value;
use hierarchy::Attribute;
use std::alloc::Global;
use std::collections::HashMap;
use typed_expr::{Env, ValueKind, eval_total};
use written_forms::translated;

// The values that were computed, each with what it is the value of.
type Known = HashMap<(u32, u32), (Attribute, Value)>;

// The variables of an expression that has none.
struct NoVariables {}

impl Env<VarId> for NoVariables {
    ghost value_at = { λ _ _. Truth false };

    ghost facts_at = { λ _ _. [] };

    ghost kind_at = { λ _ _. TruthKind };

    fn value(&self, _: &VarId) -> Value {
        Value::Truth(false)
    }

    fn facts(&self, _: &VarId) -> &[Value] {
        &[]
    }

    fn kind(&self, _: &VarId) -> ValueKind {
        ValueKind::Truth
    }
}

/// The values of all parameters, in the tree's order. The error is want of memory.
pub(crate) fn parameter_values(alloc: Global, scopes: &Scopes<'_>) -> Result<Vec<Value>, Memory>
    requires { HasScopes scopes.now }
    ensures { (m : RootedModel) (units : List UnitPath) → AreScopes m units scopes.now
        → AreNamesKept m units
        → IfOk result (λ v. Along (IsParameterValue m) (parameters_of m units) v.items) }
{
    let mut values = Vec::new(alloc);
    for (place, node) in scopes.tree.parameters.iter().enumerate() {
        let value = if scopes.is_read(place as u32) {
            value_in(alloc, scopes, &values, node.value)?
        } else {
            Value::Truth(false)
        };
        values.push(value)?;
    }
    Ok(values)
}

// The value of what has this attribute, where the values of the parameters that it may name are
// known; false where nothing is written there.
fn value_in(
    alloc: Global,
    scopes: &Scopes<'_>,
    parameters: &[Value],
    value: Attribute,
) -> Result<Value, Memory>
    requires { HasScopes scopes.now }
    ensures { IfOk result (IsScopeKnown scopes.now parameters.now value) }
{
    let Some(expr) = written(&scopes.tree.classes, value.source) else {
        return Ok(Value::Truth(false));
    };
    if value.from.n as usize >= scopes.tree.units.len() {
        return Ok(Value::Truth(false));
    }
    let leaves = UnitLeaves {
        scopes,
        unit: value.from,
        parameters,
    };
    let expression = translated(alloc, expr, &leaves)?;
    let none = NoVariables {};
    let value = eval_total(&expression, &none);
    let NoVariables {} = none;
    Ok(value)
}

// Where the value of an attribute is remembered: by the unit in which it is read and the place of its setting. The
// things that share a place stand one declaration after the other in a tree, so that the last value serves.
fn spot_of(value: Attribute) -> (u32, u32) {
    let setting = match value.source.setting {
        Some(place) => place.saturating_add(1),
        None => 0,
    };
    (value.from.n, setting)
}

// The value of what has this attribute, which is computed where it is not remembered.
fn value_once(
    alloc: Global,
    scopes: &Scopes<'_>,
    parameters: &[Value],
    known: &mut Known,
    value: Attribute,
) -> Result<Value, Memory>
    requires { HasScopes scopes.now }
    ensures value { AreKnown scopes.now parameters.now known.old
        → IfOk result (IsScopeKnown scopes.now parameters.now value) }
    ensures known { AreKnown scopes.now parameters.now known.old
        → OnOk result (AreKnown scopes.now parameters.now known.new) }
{
    let spot = spot_of(value);
    if let Some((attribute, found)) = known.get(&spot).copied() {
        if is_same_value(attribute, value) {
            return Ok(found);
        }
    }
    let found = value_in(alloc, scopes, parameters, value)?;
    known.insert(spot, (value, found))?;
    Ok(found)
}

/// The values of the `init` and `reset` of all variables, in the tree's order, where these are the
/// values of all parameters. An expression that gives several variables their values is computed once.
/// The error is want of memory.
pub(crate) fn variable_values(
    alloc: Global,
    scopes: &Scopes<'_>,
    parameters: &[Value],
) -> Result<Vec<Value>, Memory>
    requires { HasScopes scopes.now }
    ensures { (m : RootedModel) (units : List UnitPath) → AreScopes m units scopes.now
        → AreNamesKept m units
        → Along (IsParameterValue m) (parameters_of m units) parameters.now
        → IfOk result (λ v. Along (IsValue m) (variables m units) v.items) }
{
    let mut known = HashMap::new(alloc);
    let mut values = Vec::new(alloc);
    for node in &scopes.tree.variables {
        let value = value_once(alloc, scopes, parameters, &mut known, node.value)?;
        values.push(value)?;
    }
    Ok(values)
}
