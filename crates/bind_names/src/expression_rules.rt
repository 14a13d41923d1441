//! Expressions and instructions of units, and whether they break a rule.

ghost use Rattle.std.specs.Prelude.{◌<◌, List, length};
ghost use Rattle.ar_base.specs.Lists.{Stands};
ghost use Rattle.ar_syntax.specs.declared.instructions.Instr.{out-Instr};
ghost use Rattle.written_forms.specs.WrongInside.{IsNamedPath, NamesKind};
ghost use Rattle.written_forms.specs.Breaches.{MisnamesItself, MistypesItself};
ghost use Rattle.written_forms.specs.BreachesInside.{IsTarget};
ghost use Rattle.written_forms.specs.PartsInside.{BreaksInside};
ghost use Rattle.class_table.specs.Earliest.{IsEarliest};
ghost use Rattle.hierarchy.specs.Models.{RootedModel};
ghost use Rattle.hierarchy.specs.Units.{UnitPath};
ghost use Rattle.source_meaning.specs.Tested.{Scope as Meant};
ghost use Rattle.bind_scopes.specs.Scopes.{AreScopes, HasScopes, IsScope};
ghost use Rattle.bind_scopes.specs.Naming.{IsInTree, kind_in, sort_in};
ghost use Rattle.bind_names.specs.Breaking.{BreaksExpression, BreaksAction, BreaksAssertion};

use crate::breaches::Rule;
use ar_base::{Place, UnitId};
use ar_syntax::{Instr, RawExpr};
use bind_scopes::{Scope, Scopes, Sort, UnitNames};
use typed_expr::ValueKind;
use written_forms::{
    ActionRule, AssertionRule, KindRule, NameRule, first_breach, first_misnamed, first_mistyped,
};

/// The earliest place at which an expression of this scope in a unit, of which a kind is wanted,
/// breaks the rule; none where there is no such unit.
pub(crate) fn in_expression<'a>(
    scopes: &'a Scopes<'a>,
    rule: Rule,
    unit: UnitId,
    scope: Scope,
    kind: ValueKind,
    expr: &RawExpr,
) -> Option<Place>
    requires { HasScopes scopes.now }
    ensures { (m : RootedModel) (units : List UnitPath) (u : UnitPath) (s : Meant)
        → AreScopes m units scopes.now → Stands units unit.n u → IsScope m units u scope s
        → IsEarliest (BreaksExpression m rule u s kind expr.now) result }
{
    if unit.n as usize >= scopes.tree.units.len() {
        return None;
    }
    let sort = Sort::States;
    match rule {
        Rule::Names => {
            let names = UnitNames {
                scopes,
                unit,
                scope,
                sort,
            };
            first_misnamed(expr, &names)
        }
        Rule::Kinds => {
            let names = UnitNames {
                scopes,
                unit,
                scope: Scope::Everything,
                sort,
            };
            first_mistyped(expr, Some(kind), &names)
        }
        Rule::Targets => None,
    }
}

// The earliest place at which the instruction breaks the rule of names, by these names.
fn misnamed_inside<'a>(instr: &Instr, names: &UnitNames<'a>) -> Option<Place>
    requires { IsInTree names.now }
    ensures { IsEarliest (BreaksInside (MisnamesItself (IsNamedPath (kind_in names.now))
        (IsTarget (sort_in names.now))) (out-Instr instr.now)) result }
{
    let rule = NameRule { targets: names };
    let found = first_breach(instr, &rule);
    let NameRule { targets: _ } = rule;
    found
}

// The earliest place at which the instruction breaks the rule of kinds, by these names.
fn mistyped_inside<'a>(instr: &Instr, names: &UnitNames<'a>) -> Option<Place>
    requires { IsInTree names.now }
    ensures { IsEarliest (BreaksInside (MistypesItself (NamesKind (kind_in names.now)))
        (out-Instr instr.now)) result }
{
    let rule = KindRule { targets: names };
    let found = first_breach(instr, &rule);
    let KindRule { targets: _ } = rule;
    found
}

/// The earliest place at which an instruction of an action of the unit breaks the rule.
pub(crate) fn in_action<'a>(
    scopes: &'a Scopes<'a>,
    rule: Rule,
    unit: UnitId,
    instr: &Instr,
) -> Option<Place>
    requires scopes { HasScopes scopes.now }
    requires in_range { unit.n < length scopes.now.tree.now.units.items }
    ensures { (m : RootedModel) (units : List UnitPath) (u : UnitPath)
        → AreScopes m units scopes.now → Stands units unit.n u
        → IsEarliest (BreaksInside (BreaksAction m rule u) (out-Instr instr.now)) result }
{
    let names = UnitNames {
        scopes,
        unit,
        scope: Scope::Everything,
        sort: Sort::States,
    };
    match rule {
        Rule::Names => misnamed_inside(instr, &names),
        Rule::Kinds => mistyped_inside(instr, &names),
        Rule::Targets => {
            let targets = ActionRule { targets: &names };
            let found = first_breach(instr, &targets);
            let ActionRule { targets: _ } = targets;
            found
        }
    }
}

/// The earliest place at which an instruction of an assertion of the unit breaks the rule.
pub(crate) fn in_assertion<'a>(
    scopes: &'a Scopes<'a>,
    rule: Rule,
    unit: UnitId,
    instr: &Instr,
) -> Option<Place>
    requires scopes { HasScopes scopes.now }
    requires in_range { unit.n < length scopes.now.tree.now.units.items }
    ensures { (m : RootedModel) (units : List UnitPath) (u : UnitPath)
        → AreScopes m units scopes.now → Stands units unit.n u
        → IsEarliest (BreaksInside (BreaksAssertion m rule u) (out-Instr instr.now)) result }
{
    let names = UnitNames {
        scopes,
        unit,
        scope: Scope::Everything,
        sort: Sort::Flows,
    };
    match rule {
        Rule::Names => misnamed_inside(instr, &names),
        Rule::Kinds => mistyped_inside(instr, &names),
        Rule::Targets => {
            let targets = AssertionRule { targets: &names };
            let found = first_breach(instr, &targets);
            let AssertionRule { targets: _ } = targets;
            found
        }
    }
}
