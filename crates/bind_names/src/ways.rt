//! Transitions and synchronisations by numbers.

ghost use Rattle.std.specs.Prelude.{◌<◌, List, length, IfOk, OnOk};
ghost use Rattle.ar_base.specs.Lists.{Stands, IsOneOf, Along};
ghost use Rattle.ar_syntax.specs.declared.members.Part.{Part as WrittenPart};
ghost use Rattle.ar_syntax.specs.declared.members.Member.{out-Member};
ghost use Rattle.ar_syntax.specs.declared.members.Member.TheOpen.{Local, Sync};
ghost use Rattle.hierarchy.specs.Models.{RootedModel};
ghost use Rattle.hierarchy.specs.Units.{UnitPath};
ghost use Rattle.hierarchy.specs.Listing.{forms_at};
ghost use Rattle.hierarchy.specs.Tie.{IsTreeOf};
ghost use Rattle.hierarchy.specs.Walks.{is_event};
ghost use Rattle.source_meaning.specs.Rules.{FindsNone};
ghost use Rattle.bind_scopes.specs.Scopes.{HasScopes};
ghost use Rattle.bind_names.specs.Settled.{AreSettled};
ghost use Rattle.bind_names.specs.Ways.{IsBoundPart, AddsPart};
ghost use Rattle.bind_names.specs.Gathering.{IsNamedWay};

use crate::all_values::Values;
use crate::numbered_expressions::expression;
use crate::numbered_instructions::action as bind_action;
use ar_base::{EventId, Memory, NameId, UnitId};
use ar_syntax::{Member, Part};
use bind_scopes::Scopes;
use gts_core::DeclaredWay;
use std::alloc::Global;

/// The transition or the synchronisation that a member is, with the name of its event. None of a
/// member that is neither.
pub(crate) fn way_of(
    alloc: Global,
    scopes: &Scopes<'_>,
    values: &Values,
    unit: UnitId,
    member: &Member,
) -> Result<Option<(NameId, DeclaredWay)>, Memory>
    requires scopes { HasScopes scopes.now }
    requires in_range { unit.n < length scopes.now.tree.now.units.items }
    ensures { (m : RootedModel) (units : List UnitPath) (u : UnitPath)
        → AreSettled m units scopes.now values.now → Stands units unit.n u
        → IsOneOf (forms_at m u) (out-Member member.now)
        → IfOk result (IsNamedWay m units scopes.now.tree.now u (out-Member member.now)) }
{
    match member {
        Member::Local(name, _, guard, action) => {
            let test = expression(alloc, scopes, values, unit, guard)?;
            let act = bind_action(alloc, scopes, values, unit, action)?;
            Ok(Some((*name, DeclaredWay::Local(test, act))))
        }
        Member::Sync(name, at, parts) => {
            let bound = parts_of(alloc, scopes, unit, parts)?;
            Ok(Some((*name, DeclaredWay::Sync(bound, *at))))
        }
        _ => Ok(None),
    }
}

// Adds a part of a synchronisation, where it names an event.
fn add_part(
    bound: &mut Vec<(bool, EventId)>,
    scopes: &Scopes<'_>,
    unit: UnitId,
    part: &Part,
) -> Result<(), Memory>
    requires scopes { HasScopes scopes.now }
    requires in_range { unit.n < length scopes.now.tree.now.units.items }
    ensures { (m : RootedModel) (units : List UnitPath) (u : UnitPath)
        → IsTreeOf m units scopes.now.tree.now → Stands units unit.n u
        → (FindsNone m is_event u part.now.event → ⊥)
        → OnOk result (AddsPart m units u part.now bound.old.items bound.new.items) }
{
    match scopes.event_at(unit, part.event.start, &part.event.names) {
        None => Ok(()),
        Some(event) => {
            bound.push((part.must, event))?;
            Ok(())
        }
    }
}

// The parts of a synchronisation, of which each names an event.
fn parts_of(
    alloc: Global,
    scopes: &Scopes<'_>,
    unit: UnitId,
    parts: &[Part],
) -> Result<Vec<(bool, EventId)>, Memory>
    requires scopes { HasScopes scopes.now }
    requires in_range { unit.n < length scopes.now.tree.now.units.items }
    ensures { (m : RootedModel) (units : List UnitPath) (u : UnitPath)
        → IsTreeOf m units scopes.now.tree.now → Stands units unit.n u
        → ((p : WrittenPart) → IsOneOf parts.now p → FindsNone m is_event u p.event → ⊥)
        → IfOk result (λ v. Along (IsBoundPart m units u) parts.now v.items) }
{
    let mut bound = Vec::new(alloc);
    for part in parts {
        add_part(&mut bound, scopes, unit, part)?;
    }
    Ok(bound)
}
