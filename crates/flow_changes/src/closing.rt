//! The facts of a cone, gathered in place.

ghost use Rattle.std.specs.Prelude.{◌≡◌, ◌<◌, ℕ, true, length, IfOk, IfSome};
ghost use Rattle.ar_base.specs.Lists.{IsOneOf, Stands};
ghost use Rattle.domains.specs.declared.Value.{Value as Values};
ghost use Rattle.ar_meaning.specs.Facts.{FactOf};
ghost use Rattle.ar_meaning.specs.Dependence.{Names};
ghost use Rattle.gts_core.specs.Readings.{IsTotal};
ghost use Rattle.gts_core.specs.Sound.{IsSound};
ghost use Rattle.gts_core.specs.View.{assign_of, net_of};
ghost use Rattle.gts_core.specs.declared.system.Assign.{Assign as Assigns};
ghost use Rattle.gts_core.specs.declared.system.Variable.{Variable};
ghost use Rattle.gts_core.specs.declared.system.GtsParts.{GtsParts as GtsPart};
ghost use Rattle.flow_propagate.specs.Plan.{IsPlan, Reader};
ghost use Rattle.flow_changes.specs.Cone.{Knows};
ghost use Rattle.flow_changes.specs.Known.{Touches};
ghost use Rattle.flow_changes.specs.Picking.{KeepsOthers};
ghost use Rattle.flow_changes.specs.Queue.{IsQueue};
ghost use Rattle.flow_changes.specs.Following.{Looks, ClosesUp, HasPlacesTo};

use crate::gathering::places_to;
use crate::putting::apply;
use crate::queue::{Queue, add_all, take};
use ar_base::Memory;
use domains::Value;
use flow_propagate::{Plan, pairs_of};
use gts_core::GtsParts;
use std::alloc::Global;
use std::collections::BTreeSet;

// Gathers the facts of the members, and gives the places of the assignments to them; none where the quick way fails.
pub(crate) fn close(
    alloc: Global,
    parts: &GtsParts,
    plan: &Plan,
    members: &[u32],
    values: &mut Vec<Value>,
    known: &mut Vec<bool>,
) -> Result<Option<Vec<usize>>, Memory>
    requires sound { IsSound parts.now }
    requires plan { IsPlan parts.now plan.now }
    requires total { IsTotal parts.now values.old.items }
    requires marked { length known.old.items ≡ length parts.now.variables.items }
    requires closed { (n m : ℕ) (a : Assigns) → IsOneOf members.now n
        → Stands parts.now.assigns.items m a → Names (assign_of a) n
        → IsOneOf members.now a.target.n }
    requires facts { (n : ℕ) (v : Values) → Knows values.old.items known.old.items n v
        → FactOf (net_of parts.now) values.old.items n v }
    ensures values { KeepsOthers members.now values.old.items values.new.items }
    ensures marks { KeepsOthers members.now known.old.items known.new.items }
    ensures closes { IfOk result (λ o.
        IfSome o (λ list. ClosesUp parts.now plan.now members.now values.old.items known.old.items
        values.new.items known.new.items list.items)) }
{
    let mut work = queue_of(alloc, plan, members)?;
    while let Some(place) = take(&mut work) {
        if !look_at(
            alloc,
            parts,
            plan,
            plan.order[place],
            values,
            known,
            &mut work,
        )? {
            return Ok(None);
        }
    }
    Ok(Some(work.list))
}

// Makes what an assignment yields known; where it is new, the assignments that name the target wait again. False where the
// quick way fails.
fn look_at(
    alloc: Global,
    parts: &GtsParts,
    plan: &Plan,
    n: u32,
    values: &mut Vec<Value>,
    known: &mut Vec<bool>,
    work: &mut Queue,
) -> Result<bool, Memory>
    requires sound { IsSound parts.now }
    requires plan { IsPlan parts.now plan.now }
    requires below { n < length parts.now.assigns.items }
    requires total { IsTotal parts.now values.old.items }
    requires marked { length known.old.items ≡ length parts.now.variables.items }
    requires queue { IsQueue work.old }
    requires listed { (a : Assigns) (r : Reader) (q : ℕ) → Stands parts.now.assigns.items n a
        → IsOneOf plan.now.readers.pairs.items r → r.0.n ≡ a.target.n
        → Stands plan.now.places.items r.1.n q → IsOneOf work.old.list.items q }
    ensures touches { (a : Assigns) (x : Variable) → Stands parts.now.assigns.items n a
        → Stands parts.now.variables.items a.target.n x
        → Touches x.domain a.target.n values.old.items known.old.items values.new.items
        known.new.items }
    ensures looks { IfOk result (λ goes. goes ≡ true
        → Looks parts.now plan.now n values.old.items known.old.items work.old values.new.items
        known.new.items work.new) }
{
    let assign = &parts.assigns[n as usize];
    let Some(changed) = apply(alloc, parts, assign, values, known)? else {
        return Ok(false);
    };
    if !changed {
        return Ok(true);
    }
    let run = pairs_of(&plan.readers, assign.target.n);
    add_all(run, &plan.places, work)?;
    Ok(true)
}

// All assignments to the members wait.
fn queue_of(alloc: Global, plan: &Plan, members: &[u32]) -> Result<Queue, Memory>
    requires { (p : GtsPart) × IsPlan p plan.now }
    ensures is { IfOk result (λ work. IsQueue work) }
    ensures fresh { IfOk result (λ work. work.next ≡ 0) }
    ensures places { (p : GtsPart) → IsPlan p plan.now
        → IfOk result (λ work. HasPlacesTo p plan.now members.now work.list.items) }
{
    let list = places_to(alloc, &plan.givers, &plan.places, members)?;
    let again = BTreeSet::new(alloc);
    Ok(Queue {
        list,
        next: 0,
        again,
    })
}
