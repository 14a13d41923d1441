//! What lines are told from.

ghost use Rattle.std.specs.Prelude.{◌≡◌, length, IfOk};
ghost use Rattle.gts_core.specs.Sound.{IsSound};
ghost use Rattle.flow_changes.specs.Changes.{AreChanges};
ghost use Rattle.replayer.specs.Listing.{IsListReady};
ghost use Rattle.replayer.specs.Observing.{AreInOrder};

use crate::ready::{Ready, visible_ways};
use ar_base::{Memory, VarId};
use domains::Value;
use flow_propagate::add_named_pairs;
use gts_core::GtsParts;
use std::alloc::Global;

/// What lines are told from: the valuation that was told last, so that no valuation is copied at a
/// step, which observers name which variable, so that no others are looked at, and the visible
/// ways that can fire.
#[derive(Drop)]
pub(crate) struct Latest {
    /// The valuation that was told last.
    pub values: Vec<Value>,
    /// The pairs of a variable and an observer that names it, by ascending variables.
    pub observed: Vec<(u32, u32)>,
    /// The visible ways that can fire, as far as they are found.
    pub ready: Ready,
}

/// The valuation of a start, the observers and the visible ways.
pub(crate) fn at_start(alloc: Global, parts: &GtsParts, values: &[Value]) -> Result<Latest, Memory>
    requires { IsSound parts.now }
    ensures values { IfOk result (λ latest. latest.values.items ≡ values.now) }
    ensures observed { IfOk result (λ latest. AreInOrder parts.now latest.observed.items) }
    ensures ready { IfOk result (λ latest. IsListReady parts.now values.now latest.ready) }
{
    let values = Vec::from_slice(alloc, values)?;
    let observed = observed(alloc, parts)?;
    let ready = Ready {
        visible: visible_ways(alloc, &parts.events)?,
        ways: Vec::new(alloc),
        found: false,
    };
    Ok(Latest {
        values,
        observed,
        ready,
    })
}

// The pairs of a variable and an observer that names it, by ascending variables.
fn observed(alloc: Global, parts: &GtsParts) -> Result<Vec<(u32, u32)>, Memory>
    requires { IsSound parts.now }
    ensures { IfOk result (λ pairs. AreInOrder parts.now pairs.items) }
{
    let mut names = Vec::new(alloc);
    let mut pairs = Vec::new(alloc);
    for (place, observer) in parts.observers.iter().enumerate() {
        add_named_pairs(&observer.value, place as u32, &mut names, &mut pairs)?;
    }
    pairs.sort_unstable_by_key(|pair| pair.0);
    Ok(pairs)
}

/// Goes on to the next valuation, which differs in these variables alone. Takes no memory.
pub(crate) fn follow(values: &mut Vec<Value>, changed: &[VarId], next: &[Value])
    requires long { length values.old.items ≡ length next.now }
    requires changed { AreChanges values.old.items next.now changed.now }
    ensures { values.new.items ≡ next.now }
{
    for variable in changed {
        let n = variable.n as usize;
        values[n] = next[n];
    }
}
