//! The members of units, and where they break a rule.

ghost use Rattle.std.specs.Prelude.{◌<◌, List, length, map, Some};
ghost use Rattle.std.specs.List.{flat_map};
ghost use Rattle.ar_base.specs.Lists.{Stands};
ghost use Rattle.ar_syntax.specs.declared.members.Member.{out-Member};
ghost use Rattle.class_table.specs.Earliest.{IsEarliest};
ghost use Rattle.class_table.specs.Members.{owned_at as declared_at};
ghost use Rattle.class_table.specs.TablesInside.{site_of};
ghost use Rattle.hierarchy.specs.Models.{RootedModel};
ghost use Rattle.hierarchy.specs.Units.{UnitPath};
ghost use Rattle.hierarchy.specs.Listing.{form_of};
ghost use Rattle.bind_scopes.specs.Scopes.{AreScopes, HasScopes};
ghost use Rattle.bind_names.specs.Breaking.{BreaksMember, BreaksOneMember, BreaksUnit};

use crate::breaches::Rule;
use crate::event_rules::in_event;
use crate::expression_rules::{in_action, in_assertion, in_expression};
use ar_base::{BodyId, Place, UnitId};
use ar_syntax::Member;
use bind_scopes::{Scope, Scopes, members_of};
use class_table::earliest::earliest;
use class_table::{Owned, owned_at};
use typed_expr::ValueKind;

/// The earliest place at which a member of some unit breaks the rule.
pub(crate) fn in_units<'a>(scopes: &'a Scopes<'a>, rule: Rule) -> Option<Place>
    requires { HasScopes scopes.now }
    ensures { (m : RootedModel) (units : List UnitPath) → AreScopes m units scopes.now
        → IsEarliest (BreaksUnit m units rule) result }
{
    let mut found = None;
    for (place, node) in scopes.tree.units.iter().enumerate() {
        let unit = UnitId::new(place as u32);
        let sites = members_of(&scopes.tree.classes, node.body);
        found = earliest(found, in_sites(scopes, rule, unit, sites));
    }
    found
}

// The earliest place at which the member breaks the rule.
fn in_member<'a>(scopes: &'a Scopes<'a>, rule: Rule, unit: UnitId, member: &Member) -> Option<Place>
    requires scopes { HasScopes scopes.now }
    requires in_range { unit.n < length scopes.now.tree.now.units.items }
    ensures { (m : RootedModel) (units : List UnitPath) (u : UnitPath)
        → AreScopes m units scopes.now → Stands units unit.n u
        → IsEarliest (BreaksMember m rule u (out-Member member.now)) result }
{
    let event = in_event(scopes, rule, unit, member);
    match member {
        Member::Local(_, _, guard, action) => {
            let truth = ValueKind::Truth;
            let test = in_expression(scopes, rule, unit, Scope::Everything, truth, guard);
            earliest(event, earliest(test, in_action(scopes, rule, unit, action)))
        }
        Member::Assert(instr) => earliest(event, in_assertion(scopes, rule, unit, instr)),
        _ => event,
    }
}

// The earliest place at which a member at one of these sites breaks the rule.
fn in_sites<'a>(
    scopes: &'a Scopes<'a>,
    rule: Rule,
    unit: UnitId,
    sites: &[(BodyId, u32)],
) -> Option<Place>
    requires scopes { HasScopes scopes.now }
    requires in_range { unit.n < length scopes.now.tree.now.units.items }
    ensures { (m : RootedModel) (units : List UnitPath) (u : UnitPath)
        → AreScopes m units scopes.now → Stands units unit.n u
        → IsEarliest (BreaksOneMember m rule u (flat_map (λ s. form_of (declared_at m.declared s))
        (map site_of sites.now))) result }
{
    let mut found = None;
    for site in sites {
        let here = match owned_at(&scopes.tree.classes.bodies, *site) {
            None => None,
            Some(Owned::Nested(_, _, _)) => None,
            Some(Owned::Plain(member)) => in_member(scopes, rule, unit, member),
        };
        found = earliest(found, here);
    }
    found
}
