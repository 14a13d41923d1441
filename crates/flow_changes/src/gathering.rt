//! The places of the assignments to the members of a cone.

ghost use Rattle.std.specs.Prelude.{◌≡◌, ◌<◌, ℕ, length, IfOk};
ghost use Rattle.ar_base.specs.Lists.{IsOneOf};
ghost use Rattle.flow_propagate.specs.Plan.{Reader};
ghost use Rattle.flow_changes.specs.Queue.{NeverFalls};
ghost use Rattle.flow_changes.specs.Gathering.{GathersPlaces, ArePlacesTo};

use ar_base::{AssignId, Memory, VarId};
use flow_propagate::{Runs, pairs_of};
use std::alloc::Global;

// The places of the assignments to the members, ascending.
pub(crate) fn places_to(
    alloc: Global,
    givers: &Runs,
    places: &[usize],
    members: &[u32],
) -> Result<Vec<usize>, Memory>
    requires { (r : Reader) → IsOneOf givers.now.pairs.items r → r.1.n < length places.now }
    ensures rises { IfOk result (λ list. NeverFalls list.items) }
    ensures are { IfOk result (λ list.
        ArePlacesTo givers.now.pairs.items places.now members.now list.items) }
{
    let mut list = Vec::new(alloc);
    for n in members {
        add_places(pairs_of(givers, *n), places, &mut list)?;
    }
    list.sort_unstable();
    Ok(list)
}

// Adds the places of the assignments of these pairs.
fn add_places(
    pairs: &[(VarId, AssignId)],
    places: &[usize],
    list: &mut Vec<usize>,
) -> Result<(), Memory>
    requires { (r : Reader) → IsOneOf pairs.now r → r.1.n < length places.now }
    ensures { IfOk result (λ _. GathersPlaces places.now pairs.now list.old.items list.new.items) }
{
    for (_, assign) in pairs {
        list.push(places[assign.n as usize])?;
    }
    Ok(())
}
