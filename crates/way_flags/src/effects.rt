//! The effects of the ways that take part in a step.

ghost use Rattle.std.specs.Prelude.{◌≡◌, ◌<◌, ◌++◌, ℕ, length, IfOk, OnOk};
ghost use Rattle.std.specs.List.Sorted.{IsPermutation, IsNonDecreasingBy};
ghost use Rattle.ar_base.specs.Lists.{Stands};
ghost use Rattle.ar_base.specs.Numbers.{WayId as Number};
ghost use Rattle.way_flags.specs.Effects.{action_effects, taken_effects};

use ar_base::{Memory, VarId, WayId};
use domains::Value;
use gts_core::{Assign, GtsParts, WayBody, are_met, value_in};
use std::alloc::Global;

/// A value that a variable receives.
#[derive(Drop)]
pub(crate) struct Effect {
    /// The variable.
    pub target: VarId,
    /// The value.
    pub value: Value,
}

/// The effects of these ways, read over the old values.
pub(crate) fn effects(
    alloc: Global,
    parts: &GtsParts,
    values: &[Value],
    ways: &[WayId],
) -> Result<Vec<Effect>, Memory>
    requires { (k : ℕ) (id : Number) → Stands ways.now k id → id.n < length parts.now.ways.items }
    ensures { IfOk result (λ all. all.items
        ≡ taken_effects values.now parts.now.ways.items ways.now) }
{
    let mut all = Vec::new(alloc);
    for way in ways {
        match &parts.ways[way.n as usize].body {
            WayBody::Local(_, action) => add_reached(values, action, &mut all)?,
            WayBody::Sync(_) => {}
        }
    }
    Ok(all)
}

// Adds the effects of the assignments that are reached.
fn add_reached(values: &[Value], action: &[Assign], all: &mut Vec<Effect>) -> Result<(), Memory>
    ensures { OnOk result (all.new.items ≡ all.old.items ++ action_effects values.now action.now) }
{
    for assign in action {
        if are_met(values, &assign.when) {
            all.push(Effect {
                target: assign.target,
                value: value_in(values, &assign.value),
            })?;
        }
    }
    Ok(())
}

/// The effects in the order of their targets.
pub(crate) fn in_order(mut effects: Vec<Effect>) -> Result<Vec<Effect>, Memory>
    ensures same { IfOk result (λ r. IsPermutation effects.items r.items) }
    ensures ordered { IfOk result (λ r. IsNonDecreasingBy (λ e. e.target.n) r.items) }
{
    effects.sort_by_key(|effect| effect.target.n)?;
    Ok(effects)
}
