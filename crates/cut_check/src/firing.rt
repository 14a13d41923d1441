//! Which lines are true.

ghost use Rattle.std.specs.Prelude.{◌≡◌, ◌≤◌, ◌<◌, ◌-◌, ◌++◌, ◌∷◌, ℕ, List, [], Bool, IsTrue, false, take, reverse, length, vec_len, IfOk, OnOk};
ghost use Rattle.ar_base.specs.Lists.{Stands, IsOneOf};
ghost use Rattle.ar_firing.specs.Cuts.{Reaches};
ghost use Rattle.ar_firing.specs.Fragment.{IsOpen};
ghost use Rattle.ar_firing.specs.Replays.{AreOpen};
ghost use Rattle.ar_meaning.specs.Found.{IsAnswer};
ghost use Rattle.ar_meaning.specs.Runs.{Start};
ghost use Rattle.ar_meaning.specs.Systems.{System, Way};
ghost use Rattle.domains.specs.declared.Value.{Value as TheValue};
ghost use Rattle.gts_core.specs.Sound.{IsSound};
ghost use Rattle.gts_core.specs.View.{Views, net_of, numbered};
ghost use Rattle.job_inputs.specs.Chains.{chain_labels, HaveKnownWays};
ghost use Rattle.job_inputs.specs.CutReads.{AreKnownWays};
ghost use Rattle.text_pieces.specs.WayLabels.{numbered_label};
ghost use Rattle.cut_check.specs.Flat.{chain_lines};
ghost use Rattle.cut_check.specs.Rows.{IsFit, AreLineRows};
ghost use Rattle.cut_check.specs.Truths.{HasFired, AreTruths};
ghost use Rattle.cut_check.specs.Verdicts.{IsTrueLine};

use crate::rows::Row;
use ar_base::{Memory, WayId};
use domains::Value;
use flow_propagate::PropagateFault;
use gts_core::{Chain, Gts, Observer, value_in};
use std::alloc::Global;
use stepper::{NoStep, StepFault, Stepper};

/// Whether each line is true.
pub(crate) fn true_lines(
    alloc: Global,
    gts: &Gts,
    observer: &Observer,
    wanted: Value,
    chains: &[Chain],
    rows: &[Row],
) -> Result<Vec<bool>, Memory>
    requires known { HaveKnownWays gts.now chains.now }
    requires observer { IsOneOf gts.now.observers.items observer.now }
    requires rows { length rows.now ≡ length chains.now }
    ensures long { IfOk result (λ truths. length truths.items ≡ length chains.now) }
    ensures truths { (system : System ℕ) → Views gts.now system → (dropped : List ℕ)
        → AreLineRows gts.now dropped chains.now rows.now
        → IfOk result (λ truths. AreTruths system dropped (numbered observer.now.value) wanted
        (chain_lines gts.now chains.now) truths.items) }
{
    let _sound_parts = gts.parts();
    match Stepper::start(alloc, gts) {
        Ok(stepper) => fired_lines(alloc, gts, stepper, observer, wanted, chains, rows),
        Err(fault) => unstarted(alloc, fault, chains.len()),
    }
}

// That none of so many lines is true where the start meets this fault, unless it is want of memory.
fn unstarted(alloc: Global, fault: PropagateFault, count: usize) -> Result<Vec<bool>, Memory>
    ensures long { IfOk result (λ truths. length truths.items ≡ count) }
    ensures none { IfOk result (λ truths. (n : ℕ) (b : Bool) → Stands truths.items n b
        → b ≡ false) }
    ensures fault { IfOk result (λ _. fault ≡ PropagateFault.Memory → ⊥) }
{
    match fault {
        PropagateFault::Flow(_) => {
            let truths = vec![in alloc; false; count]?;
            Ok(truths)
        }
        PropagateFault::Memory => Err(Memory {}),
    }
}

// Whether each line is true, by a run from the start.
fn fired_lines(
    alloc: Global,
    gts: &Gts,
    mut stepper: Stepper,
    observer: &Observer,
    wanted: Value,
    chains: &[Chain],
    rows: &[Row],
) -> Result<Vec<bool>, Memory>
    requires sound { IsSound gts.now }
    requires same { stepper.system ≡ gts.now }
    requires starts { Start (net_of gts.now) stepper.values }
    requires no_step { stepper.below ≡ [] }
    requires known { HaveKnownWays gts.now chains.now }
    requires observer { IsOneOf gts.now.observers.items observer.now }
    requires rows { length rows.now ≡ length chains.now }
    ensures long { IfOk result (λ truths. length truths.items ≡ length chains.now) }
    ensures truths { (system : System ℕ) → Views gts.now system → (dropped : List ℕ)
        → AreLineRows gts.now dropped chains.now rows.now
        → IfOk result (λ truths. AreTruths system dropped (numbered observer.now.value) wanted
        (chain_lines gts.now chains.now) truths.items) }
{
    let mut fired = Vec::new(alloc);
    let mut truths = Vec::new(alloc);
    for (n, chain) in chains.iter().enumerate() {
        let fit = rows[n].fit;
        let is = is_true(
            gts,
            &mut stepper,
            &mut fired,
            fit,
            observer,
            wanted,
            &chain.ways,
        )?;
        truths.push(is)?;
    }
    Ok(truths)
}

// Whether a line is true. What stands of the lines before is taken back to where this one differs.
fn is_true(
    gts: &Gts,
    stepper: &mut Stepper,
    fired: &mut Vec<WayId>,
    fit: bool,
    observer: &Observer,
    wanted: Value,
    ways: &[WayId],
) -> Result<bool, Memory>
    requires sound { IsSound gts.now }
    requires same { stepper.old.system ≡ gts.now }
    requires known { AreKnownWays gts.now ways.now }
    requires observer { IsOneOf gts.now.observers.items observer.now }
    ensures system { stepper.new.system ≡ stepper.old.system }
    ensures fired { (system : System ℕ) → Views gts.now system → (dropped : List ℕ)
        → IsAnswer fit (IsFit gts.now dropped (chain_labels gts.now ways.now))
        → HasFired gts.now system dropped fired.old.items stepper.old
        → OnOk result (HasFired gts.now system dropped fired.new.items stepper.new) }
    ensures answer { (system : System ℕ) → Views gts.now system → (dropped : List ℕ)
        → IsAnswer fit (IsFit gts.now dropped (chain_labels gts.now ways.now))
        → HasFired gts.now system dropped fired.old.items stepper.old
        → IfOk result (λ is. IsAnswer is
        (IsTrueLine system dropped (numbered observer.now.value) wanted
        (chain_labels gts.now ways.now))) }
{
    if !fit {
        return Ok(false);
    }
    go_back(gts, stepper, fired, ways);
    let done = go_on(gts, stepper, fired, ways)?;
    if !done {
        return Ok(false);
    }
    Ok(value_in(&stepper.values().values, &observer.value) == wanted)
}

// Goes back to where what was fired differs from these ways.
fn go_back(gts: &Gts, stepper: &mut Stepper, fired: &mut Vec<WayId>, ways: &[WayId])
    requires { stepper.old.system ≡ gts.now }
    ensures system { stepper.new.system ≡ stepper.old.system }
    ensures short { vec_len fired.new ≤ length ways.now }
    ensures same { fired.new.items ≡ take (vec_len fired.new) ways.now }
    ensures fired { (system : System ℕ) (dropped : List ℕ)
        → HasFired gts.now system dropped fired.old.items stepper.old
        → HasFired gts.now system dropped fired.new.items stepper.new }
{
    let shared = shared_len(fired, ways);
    while fired.len() > shared {
        step_back(gts, stepper, fired);
    }
}

// How many ways two lists have in common at their start.
fn shared_len(first: &[WayId], second: &[WayId]) -> usize
    ensures first { result ≤ length first.now }
    ensures second { result ≤ length second.now }
    ensures same { take result first.now ≡ take result second.now }
{
    let mut n = 0;
    while n < first.len() && n < second.len() && first[n].n == second[n].n {
        n += 1;
    }
    n
}

// Takes the last way back.
fn step_back(gts: &Gts, stepper: &mut Stepper, fired: &mut Vec<WayId>)
    requires same { stepper.old.system ≡ gts.now }
    requires some { 0 < vec_len fired.old }
    ensures system { stepper.new.system ≡ stepper.old.system }
    ensures less { vec_len fired.new ≡ vec_len fired.old - 1 }
    ensures rest { fired.new.items ≡ take (vec_len fired.old - 1) fired.old.items }
    ensures fired { (system : System ℕ) (dropped : List ℕ)
        → HasFired gts.now system dropped fired.old.items stepper.old
        → HasFired gts.now system dropped fired.new.items stepper.new }
{
    let _last = fired.pop();
    match stepper.back() {
        Ok(_) => {}
        Err(NoStep {}) => {}
    }
}

// Fires the ways that are left, until one of them meets a fault; says whether none does.
fn go_on(
    gts: &Gts,
    stepper: &mut Stepper,
    fired: &mut Vec<WayId>,
    ways: &[WayId],
) -> Result<bool, Memory>
    requires sound { IsSound gts.now }
    requires same { stepper.old.system ≡ gts.now }
    requires known { AreKnownWays gts.now ways.now }
    requires short { vec_len fired.old ≤ length ways.now }
    requires front { fired.old.items ≡ take (vec_len fired.old) ways.now }
    ensures system { stepper.new.system ≡ stepper.old.system }
    ensures fired { (system : System ℕ) → Views gts.now system → (dropped : List ℕ)
        → AreOpen system dropped (chain_labels gts.now ways.now)
        → HasFired gts.now system dropped fired.old.items stepper.old
        → OnOk result (HasFired gts.now system dropped fired.new.items stepper.new) }
    ensures all { IfOk result (λ done. IsTrue done → fired.new.items ≡ ways.now) }
    ensures stops { (system : System ℕ) → Views gts.now system → (dropped : List ℕ)
        → AreOpen system dropped (chain_labels gts.now ways.now)
        → HasFired gts.now system dropped fired.old.items stepper.old
        → IfOk result (λ done. done ≡ false → (t : List TheValue)
        → Reaches system dropped (reverse (chain_labels gts.now ways.now)) t → ⊥) }
{
    while fired.len() < ways.len() {
        let way = ways[fired.len()];
        let done = fire(gts, stepper, fired, way)?;
        if !done {
            return Ok(false);
        }
    }
    Ok(true)
}

// Fires a way, and says whether it meets no fault.
fn fire(
    gts: &Gts,
    stepper: &mut Stepper,
    fired: &mut Vec<WayId>,
    way: WayId,
) -> Result<bool, Memory>
    requires sound { IsSound gts.now }
    requires same { stepper.old.system ≡ gts.now }
    requires known { way.n < length gts.now.ways.items }
    ensures system { stepper.new.system ≡ stepper.old.system }
    ensures all { IfOk result (λ done. IsTrue done
        → fired.new.items ≡ fired.old.items ++ way ∷ []) }
    ensures none { IfOk result (λ done. done ≡ false → fired.new ≡ fired.old) }
    ensures fired { (system : System ℕ) → Views gts.now system → (dropped : List ℕ)
        → (w : Way ℕ) → IsOpen system dropped (numbered_label gts.now way.n) w
        → HasFired gts.now system dropped fired.old.items stepper.old
        → OnOk result (HasFired gts.now system dropped fired.new.items stepper.new) }
    ensures stops { (system : System ℕ) → Views gts.now system → (dropped : List ℕ)
        → HasFired gts.now system dropped fired.old.items stepper.old
        → IfOk result (λ done. done ≡ false → (t : List TheValue)
        → Reaches system dropped (numbered_label gts.now way.n
        ∷ reverse (chain_labels gts.now fired.old.items)) t → ⊥) }
{
    match stepper.fire(way) {
        Ok(_) => {
            fired.push(way)?;
            Ok(true)
        }
        Err(fault) => match fault {
            StepFault::Memory => Err(Memory {}),
            _ => Ok(false),
        },
    }
}
