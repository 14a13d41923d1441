//! What the state variables receive in a step.

ghost use Rattle.std.specs.Prelude.{◌≡◌, ◌<◌, ℕ, true, length, IfErr, IfOk, OnOk};
ghost use Rattle.std.specs.List.Sorted.{IsNonDecreasingBy};
ghost use Rattle.ar_meaning.specs.Systems.{Way};
ghost use Rattle.gts_core.specs.View.{net_of, IsWayAt};
ghost use Rattle.gts_core.specs.Sound.{IsSound};
ghost use Rattle.gts_core.specs.Readings.{IsTotal};
ghost use Rattle.flow_propagate.specs.Answers.{IsState};
ghost use Rattle.flow_propagate.specs.NewValues.{AreNewValues, written};
ghost use Rattle.way_flags.specs.Parts.{flag_at};
ghost use Rattle.way_flags.specs.Ways.{AreFlags};
ghost use Rattle.way_flags.specs.Receiving.{AddsOne, AreOneEach, AreToState, ClashOrAgree, IsLeastClash, IsLeastLeaving, LastOrOther};
ghost use Rattle.way_flags.specs.Ready.{AreReceived, IsReadyWay, IsReceiveFault};

use crate::effects::{Effect, effects, in_order};
use crate::faults::ReceiveFault;
use crate::takers::takers;
use ar_base::{Memory, VarId, WayId};
use domains::Value;
use gts_core::GtsParts;
use std::alloc::Global;

/// What the state variables receive where a way is fired that can be: each variable that receives a value, ascending, with
/// that value.
///
/// The way can be fired where its flag is set. The fault is the least variable that receives two different values; where
/// there is none, the least that receives a value outside its domain; or want of memory.
pub fn received(
    alloc: Global,
    parts: &GtsParts,
    flags: &[bool],
    values: &[Value],
    way: WayId,
) -> Result<Vec<(VarId, Value)>, ReceiveFault>
    requires sound { IsSound parts.now }
    requires total { IsTotal parts.now values.now }
    requires right { AreFlags parts.now values.now flags.now }
    requires inside { way.n < length parts.now.ways.items }
    requires can { flag_at flags.now way.n ≡ true }
    ensures new { IfOk result (λ r. AreNewValues parts.now r.items) }
    ensures exactly { IfOk result (λ r. (w : Way ℕ) → IsWayAt parts.now way.n w
        → AreReceived (net_of parts.now) values.now w r.items) }
    ensures state { IfOk result (λ r. IsState parts.now (written values.now r.items)) }
    ensures received { IfOk result (λ r. (w : Way ℕ) → IsWayAt parts.now way.n w
        → IsReadyWay (net_of parts.now) values.now w (written values.now r.items)) }
    ensures fault { IfErr result (λ f. (w : Way ℕ) → IsWayAt parts.now way.n w
        → IsReceiveFault (net_of parts.now) values.now w f) }
{
    let ways = takers(alloc, parts, flags, way)?;
    let all = effects(alloc, parts, values, &ways)?;
    let effects = in_order(all)?;
    if let Some(variable) = first_clash(&effects) {
        return Err(ReceiveFault::Clash(variable));
    }
    if let Some(variable) = first_leaving(parts, &effects) {
        return Err(ReceiveFault::Range(variable));
    }
    Ok(one_each(alloc, &effects)?)
}

// The least variable that receives two different values. Where it does, two neighbours among its effects differ.
fn first_clash(effects: &[Effect]) -> Option<VarId>
    requires { IsNonDecreasingBy (λ e. e.target.n) effects.now }
    ensures { IsLeastClash effects.now result }
{
    for place in 1..effects.len() {
        if clash(&effects[place - 1], &effects[place]) {
            return Some(effects[place].target);
        }
    }
    None
}

// Whether two effects give one variable different values.
fn clash(first: &Effect, second: &Effect) -> bool
    ensures { ClashOrAgree result first.now second.now }
{
    first.target.n == second.target.n && first.value != second.value
}

// The least variable that receives a value outside its domain.
fn first_leaving(parts: &GtsParts, effects: &[Effect]) -> Option<VarId>
    requires sound { IsSound parts.now }
    requires targets { AreToState parts.now effects.now }
    requires ordered { IsNonDecreasingBy (λ e. e.target.n) effects.now }
    ensures { IsLeastLeaving parts.now effects.now result }
{
    for effect in effects {
        if !parts.variables[effect.target.n as usize]
            .domain
            .holds(effect.value)
        {
            return Some(effect.target);
        }
    }
    None
}

// The first effect on each variable, as its number and the value.
fn one_each(alloc: Global, effects: &[Effect]) -> Result<Vec<(VarId, Value)>, Memory>
    requires { IsNonDecreasingBy (λ e. e.target.n) effects.now }
    ensures { IfOk result (λ r. AreOneEach effects.now r.items) }
{
    let mut new = Vec::new(alloc);
    for effect in effects {
        add_one(effect, &mut new)?;
    }
    Ok(new)
}

// Adds an effect, where the last one that was added is on another variable.
fn add_one(effect: &Effect, new: &mut Vec<(VarId, Value)>) -> Result<(), Memory>
    ensures { OnOk result (AddsOne effect.now new.old.items new.new.items) }
{
    if is_last(new, effect.target) {
        return Ok(());
    }
    new.push((effect.target, effect.value))?;
    Ok(())
}

// Whether the last of these pairs is the variable's.
fn is_last(new: &[(VarId, Value)], variable: VarId) -> bool
    ensures { LastOrOther result new.now variable.n }
{
    match new.last() {
        Some((last, _)) => last.n == variable.n,
        None => false,
    }
}
