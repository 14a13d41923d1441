//! The assignments that may give a value outside their targets' domains.

ghost use Rattle.std.specs.Prelude.{◌<◌, IfOk, OnOk, length, map};
ghost use Rattle.ar_base.specs.Lists.{Stands};
ghost use Rattle.gts_core.specs.Sound.{IsSound};
ghost use Rattle.gts_core.specs.View.{variable_of, assign_of};
ghost use Rattle.gts_core.specs.declared.system.Variable.{Variable as FlatVariable};
ghost use Rattle.tree_equations.specs.Index.{IsIndex, AreNumbersOf, AreLeaving, AddsLeaving, to_target};
ghost use Rattle.gts_core.specs.Rows.{AreDomains};

use crate::index::Index;
use ar_base::Memory;
use flow_propagate::some_outside;
use gts_core::{Domains, GtsParts, domains_of};
use std::alloc::Global;
use typed_expr::eval_set;

// The numbers of these assignments, flow by flow.
pub(crate) fn leaving(alloc: Global, parts: &GtsParts, index: &Index) -> Result<Vec<u32>, Memory>
    requires sound { IsSound parts.now }
    requires index { IsIndex parts.now index.now }
    ensures { IfOk result (λ leaving. AreLeaving parts.now leaving.items) }
{
    let domains = domains_of(alloc, parts)?;
    let mut leaving = Vec::new(alloc);
    for (n, variable) in parts.variables.iter().enumerate() {
        if !variable.is_state {
            push_leaving(alloc, parts, &domains, n, &index.assigns[n], &mut leaving)?;
        }
    }
    Ok(leaving)
}

// Those of the assignments to a flow that may give a value outside its domain.
fn push_leaving(
    alloc: Global,
    parts: &GtsParts,
    domains: &Domains,
    flow: usize,
    numbers: &[u32],
    leaving: &mut Vec<u32>,
) -> Result<(), Memory>
    requires sound { IsSound parts.now }
    requires domains { AreDomains parts.now (length parts.now.variables.items)
        domains.now.rows.items }
    requires flow { flow < length parts.now.variables.items }
    requires numbers { AreNumbersOf parts.now.assigns.items numbers.now
        (to_target flow parts.now.assigns.items) }
    ensures { OnOk result ((x : FlatVariable) → Stands parts.now.variables.items flow x
        → AddsLeaving parts.now (variable_of flow x)
        (map assign_of (to_target flow parts.now.assigns.items))
        leaving.old.items leaving.new.items) }
{
    let variable = &parts.variables[flow];
    for k in numbers {
        let set = eval_set(alloc, &parts.assigns[*k as usize].value, domains)?;
        if some_outside(&variable.domain, set.values()) {
            leaving.push(*k)?;
        }
    }
    Ok(())
}
