//! The assertions of a tree by numbers.

ghost use Rattle.std.specs.Prelude.{◌≡◌, ◌<◌, List, Some, length, map, option_copied, IfOk, OnOk};
ghost use Rattle.std.specs.List.{flat_map};
ghost use Rattle.ar_base.specs.Lists.{Along, IsOneOf, Stands};
ghost use Rattle.class_table.specs.Declaring.{Declared};
ghost use Rattle.class_table.specs.Members.{owned_at as declared_at};
ghost use Rattle.class_table.specs.TablesInside.{IsBodyOf, site_of};
ghost use Rattle.hierarchy.specs.Listing.{all_in, asserted as asserted_by, form_of, forms_at};
ghost use Rattle.hierarchy.specs.Models.{RootedModel};
ghost use Rattle.hierarchy.specs.Units.{UnitPath, members_at};
ghost use Rattle.bind_scopes.specs.Scopes.{HasScopes};
ghost use Rattle.bind_names.specs.Settled.{AreSettled};
ghost use Rattle.bind_names.specs.Adding.{AddsAssertions, asserted_in};
ghost use Rattle.bind_names.specs.ListBound.{AreBoundAssertions};

use crate::all_values::Values;
use crate::numbered_instructions::assertion;
use ar_base::{BodyId, Memory, UnitId};
use ar_syntax::{Instr, Member};
use bind_scopes::{Scopes, members_of};
use class_table::{Body, Owned, owned_at};
use gts_core::Act;
use std::alloc::Global;

/// The instructions of the assertions of a tree, by unit and member. Each unit's members are read
/// once. The error is want of memory.
pub fn assertions(alloc: Global, scopes: &Scopes<'_>, values: &Values) -> Result<Vec<Act>, Memory>
    requires { HasScopes scopes.now }
    ensures { (m : RootedModel) (units : List UnitPath) → AreSettled m units scopes.now values.now
        → IfOk result (λ v. AreBoundAssertions m units scopes.now.tree.now v.items) }
{
    let mut acts = Vec::new(alloc);
    for (place, node) in scopes.tree.units.iter().enumerate() {
        let unit = UnitId::new(place as u32);
        let sites = members_of(&scopes.tree.classes, node.body);
        add_all(&mut acts, alloc, scopes, values, unit, sites)?;
    }
    Ok(acts)
}

// The instruction of the assertion that stands there.
fn asserted_at(bodies: &[Body], site: (BodyId, u32)) -> Option<&Instr>
    ensures { (d : Declared) → Along IsBodyOf bodies.now d.bodies
        → option_copied result ≡ asserted_in (declared_at d (site_of site)) }
{
    match owned_at(bodies, site)? {
        Owned::Plain(Member::Assert(instr)) => Some(instr),
        _ => None,
    }
}

// Adds what the member at a site of a unit becomes, where it is an assertion.
fn add_at(
    acts: &mut Vec<Act>,
    alloc: Global,
    scopes: &Scopes<'_>,
    values: &Values,
    unit: UnitId,
    site: (BodyId, u32),
) -> Result<(), Memory>
    requires scopes { HasScopes scopes.now }
    requires in_range { unit.n < length scopes.now.tree.now.units.items }
    ensures { (m : RootedModel) (units : List UnitPath) (u : UnitPath)
        → AreSettled m units scopes.now values.now → Stands units unit.n u
        → IsOneOf (members_at m u) (site_of site)
        → OnOk result (AddsAssertions m units scopes.now.tree.now (all_in u
        (flat_map asserted_by (form_of (declared_at m.declared (site_of site)))))
        acts.old.items acts.new.items) }
{
    match asserted_at(&scopes.tree.classes.bodies, site) {
        None => Ok(()),
        Some(instr) => {
            let act = assertion(alloc, scopes, values, unit, instr)?;
            acts.push(act)?;
            Ok(())
        }
    }
}

// Adds what the assertions at the sites of a unit become.
fn add_all(
    acts: &mut Vec<Act>,
    alloc: Global,
    scopes: &Scopes<'_>,
    values: &Values,
    unit: UnitId,
    sites: &[(BodyId, u32)],
) -> Result<(), Memory>
    requires scopes { HasScopes scopes.now }
    requires in_range { unit.n < length scopes.now.tree.now.units.items }
    ensures { (m : RootedModel) (units : List UnitPath) (u : UnitPath)
        → AreSettled m units scopes.now values.now → Stands units unit.n u
        → map site_of sites.now ≡ members_at m u
        → OnOk result (AddsAssertions m units scopes.now.tree.now
        (all_in u (flat_map asserted_by (forms_at m u))) acts.old.items acts.new.items) }
{
    for site in sites {
        add_at(acts, alloc, scopes, values, unit, *site)?;
    }
    Ok(())
}
