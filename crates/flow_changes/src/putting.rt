//! Values that become known.

ghost use Rattle.std.specs.Prelude.{◌≡◌, ◌<◌, ◌∷◌, [], ℕ, true, false, length, IfOk, IfSome, IfNone};
ghost use Rattle.ar_base.specs.Lists.{IsOneOf, Stands};
ghost use Rattle.gts_core.specs.declared.system.Variable.{Variable};
ghost use Rattle.domains.specs.Domains.{IsDomain};
ghost use Rattle.ar_meaning.specs.Dependence.{Names};
ghost use Rattle.gts_core.specs.Readings.{IsTotal};
ghost use Rattle.gts_core.specs.Sound.{IsSound};
ghost use Rattle.gts_core.specs.View.{assign_of};
ghost use Rattle.flow_changes.specs.Picking.{KeepsOthers};
ghost use Rattle.flow_changes.specs.Known.{PutsKnown, Touches, Applies, IsBarred, IsSetBarred};

use crate::known::{Known, yielded};
use crate::marked::names_marked;
use ar_base::Memory;
use domains::{Domain, Value};
use gts_core::{Assign, GtsParts, are_met, value_in};
use std::alloc::Global;

// Makes what an assignment yields known for its target, and answers whether it was not; none where it has more than one value,
// one outside the target's domain, or another than the known one.
pub(crate) fn apply(
    alloc: Global,
    parts: &GtsParts,
    assign: &Assign,
    values: &mut Vec<Value>,
    known: &mut Vec<bool>,
) -> Result<Option<bool>, Memory>
    requires sound { IsSound parts.now }
    requires one { IsOneOf parts.now.assigns.items assign.now }
    requires total { IsTotal parts.now values.old.items }
    requires marked { length known.old.items ≡ length parts.now.variables.items }
    ensures touches { (x : Variable) → Stands parts.now.variables.items assign.now.target.n x
        → Touches x.domain assign.now.target.n values.old.items known.old.items values.new.items
        known.new.items }
    ensures applies { IfOk result (λ o.
        IfSome o (Applies parts.now assign.now values.old.items known.old.items values.new.items
        known.new.items)) }
{
    if names_marked(assign, known) {
        return Ok(apply_known(parts, assign, values, known));
    }
    apply_set(alloc, parts, assign, values, known)
}

// Makes a value known, and answers whether it was not; none where the domain lacks it or another value is known.
fn put(
    domain: &Domain,
    target: u32,
    v: Value,
    values: &mut Vec<Value>,
    known: &mut Vec<bool>,
) -> Option<bool>
    requires domain { IsDomain domain.now }
    requires within { target < length values.old.items }
    requires marked { target < length known.old.items }
    ensures touches { Touches domain.now target values.old.items known.old.items values.new.items
        known.new.items }
    ensures puts { IfSome result (PutsKnown domain.now target (v ∷ []) values.old.items known.old.items
        values.new.items known.new.items) }
    ensures none { IfNone result (IsBarred domain.now target v values.old.items known.old.items) }
{
    if !domain.holds(v) {
        return None;
    }
    let place = target as usize;
    if known[place] {
        return if values[place] == v {
            Some(false)
        } else {
            None
        };
    }
    values[place] = v;
    known[place] = true;
    Some(true)
}

// The same for what an assignment yields, which is one value at most; none where it has more.
fn put_all(
    domain: &Domain,
    target: u32,
    set: &[Value],
    values: &mut Vec<Value>,
    known: &mut Vec<bool>,
) -> Option<bool>
    requires domain { IsDomain domain.now }
    requires within { target < length values.old.items }
    requires marked { target < length known.old.items }
    ensures touches { Touches domain.now target values.old.items known.old.items values.new.items
        known.new.items }
    ensures puts { IfSome result (PutsKnown domain.now target set.now values.old.items known.old.items
        values.new.items known.new.items) }
    ensures none { IfNone result (IsSetBarred domain.now target set.now values.old.items
        known.old.items) }
{
    if set.len() == 0 {
        return Some(false);
    }
    if set.len() > 1 {
        return None;
    }
    put(domain, target, set[0], values, known)
}

// The same where every variable that the assignment names is known: it yields one value, which takes no memory.
fn apply_known(
    parts: &GtsParts,
    assign: &Assign,
    values: &mut Vec<Value>,
    known: &mut Vec<bool>,
) -> Option<bool>
    requires sound { IsSound parts.now }
    requires one { IsOneOf parts.now.assigns.items assign.now }
    requires total { IsTotal parts.now values.old.items }
    requires marked { length known.old.items ≡ length parts.now.variables.items }
    requires named { (n : ℕ) → Names (assign_of assign.now) n → Stands known.old.items n true }
    ensures touches { (x : Variable) → Stands parts.now.variables.items assign.now.target.n x
        → Touches x.domain assign.now.target.n values.old.items known.old.items values.new.items
        known.new.items }
    ensures applies { IfSome result (Applies parts.now assign.now values.old.items known.old.items
        values.new.items known.new.items) }
{
    if !are_met(values, &assign.when) {
        return Some(false);
    }
    let v = value_in(values, &assign.value);
    let domain = &parts.variables[assign.target.n as usize].domain;
    put(domain, assign.target.n, v, values, known)
}

// The same by the set of what the assignment yields.
fn apply_set(
    alloc: Global,
    parts: &GtsParts,
    assign: &Assign,
    values: &mut Vec<Value>,
    known: &mut Vec<bool>,
) -> Result<Option<bool>, Memory>
    requires sound { IsSound parts.now }
    requires one { IsOneOf parts.now.assigns.items assign.now }
    requires long { length values.old.items ≡ length parts.now.variables.items }
    requires marked { length known.old.items ≡ length parts.now.variables.items }
    ensures touches { (x : Variable) → Stands parts.now.variables.items assign.now.target.n x
        → Touches x.domain assign.now.target.n values.old.items known.old.items values.new.items
        known.new.items }
    ensures applies { IfOk result (λ o.
        IfSome o (Applies parts.now assign.now values.old.items known.old.items values.new.items
        known.new.items)) }
{
    let Some(set) = yielded(alloc, assign, &Known { values, known })? else {
        return Ok(Some(false));
    };
    let domain = &parts.variables[assign.target.n as usize].domain;
    let changed = put_all(domain, assign.target.n, set.values(), values, known);
    Ok(changed)
}
