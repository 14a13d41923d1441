//! What tells of a conflict: two known values, a value outside its domain, an assignment that does not hold.

ghost use Rattle.std.specs.Prelude.{◌≡◌, ◌≤◌, ◌<◌, ◌++◌, ℕ, List, IfOk, OnOk, length};
ghost use Rattle.ar_base.specs.Lists.{Along, IsOneOf};
ghost use Rattle.gts_core.specs.declared.system.Assign.{Assign as FlatAssign};
ghost use Rattle.ar_meaning.specs.Systems as system;
ghost use Rattle.domains.specs.Domains.{IsDomain, values_of};
ghost use Rattle.eq_build.specs.BuildsInside.{most_gates};
ghost use Rattle.eq_build.specs.Views.{entry_of, entries_in, operands_in, terms_in, gates_in, row_at};
ghost use Rattle.gts_core.specs.Sound.{IsSound};
ghost use Rattle.gts_core.specs.View.{variable_of, assign_of};
ghost use Rattle.eq_build.specs.Steps.{Threads, Sees_two, Sees_outside, Sees_broken, pairs_in, others_with, outside_terms, broken_terms};
ghost use Rattle.tree_equations.specs.Answers.{Gives, GivesEach, GivesOperand, signs_in, row_in, itself};
ghost use Rattle.tree_equations.specs.Index.{AreUnder, IsLeaving};

use crate::assigning::{BuiltAssign, behind, build_assign};
use ar_base::Memory;
use domains::Domain;
use eq_build::{BuildFault, Entry, one_of_alls};
use eq_core::{Gate, Operand};
use gts_core::{Assign, GtsParts};
use std::alloc::Global;

// For each flow, that it is known to have two values.
pub(crate) fn twos(
    alloc: Global,
    gates: &mut Vec<Gate>,
    rows: &[Vec<Entry>],
    flows: &[u32],
) -> Result<Vec<Operand>, BuildFault>
    requires few { length gates.old.items ≤ most_gates }
    requires under { AreUnder (length rows.now) flows.now }
    ensures { GivesEach signs_in itself (Sees_two (row_at rows.now)) (gates_in gates.old.items)
        flows.now
        result gates.new.items }
{
    let mut seen = Vec::new(alloc);
    for n in flows {
        let terms = pairs(alloc, &rows[*n as usize])?;
        let operand = one_of_alls(alloc, gates, &terms)?;
        seen.push(operand)?;
    }
    Ok(seen)
}

// The pairs of a flow's entries, each with a later one.
fn pairs(alloc: Global, entries: &[Entry]) -> Result<Vec<Vec<Operand>>, Memory>
    ensures { IfOk result (λ terms. terms_in terms.items ≡ pairs_in (entries_in entries.now)) }
{
    let mut terms = Vec::new(alloc);
    for (n, entry) in entries.iter().enumerate() {
        push_others(alloc, &mut terms, &[], *entry, &entries[n + 1..])?;
    }
    Ok(terms)
}

// An entry with each other one of a different value, behind these operands.
fn push_others(
    alloc: Global,
    terms: &mut Vec<Vec<Operand>>,
    conditions: &[Operand],
    entry: Entry,
    others: &[Entry],
) -> Result<(), Memory>
    ensures { OnOk result (terms_in terms.new.items ≡ terms_in terms.old.items
        ++ others_with (operands_in conditions.now) (entry_of entry) (entries_in others.now)) }
{
    for other in others {
        if entry.value != other.value {
            let term = behind(alloc, conditions, &[entry.operand, other.operand])?;
            terms.push(term)?;
        }
    }
    Ok(())
}

// For each of these assignments, that it is reached with a value outside its target's domain.
pub(crate) fn outs(
    alloc: Global,
    gates: &mut Vec<Gate>,
    rows: &[Vec<Entry>],
    parts: &GtsParts,
    leaving: &[u32],
) -> Result<Vec<Operand>, BuildFault>
    requires few { length gates.old.items ≤ most_gates }
    requires sound { IsSound parts.now }
    requires leaving { (pairs : List (system.Variable ℕ × system.Assign ℕ))
        × Along (IsLeaving parts.now) leaving.now pairs }
    ensures { (pairs : List (system.Variable ℕ × system.Assign ℕ))
        → Along (IsLeaving parts.now) leaving.now pairs
        → Gives signs_in (λ os h. Threads (Sees_outside (row_at rows.now))
        (gates_in gates.old.items) pairs os h)
        result gates.new.items }
{
    let mut seen = Vec::new(alloc);
    for k in leaving {
        let assign = &parts.assigns[*k as usize];
        let domain = &parts.variables[assign.target.n as usize].domain;
        let operand = outside(alloc, gates, rows, domain, assign)?;
        seen.push(operand)?;
    }
    Ok(seen)
}

// An assignment is reached with a value outside this domain.
fn outside(
    alloc: Global,
    gates: &mut Vec<Gate>,
    rows: &[Vec<Entry>],
    domain: &Domain,
    assign: &Assign,
) -> Result<Operand, BuildFault>
    requires few { length gates.old.items ≤ most_gates }
    requires domain { IsDomain domain.now }
    ensures { (x : system.Variable ℕ) → x.domain ≡ values_of domain.now
        → GivesOperand (λ o h. Sees_outside
        (row_at rows.now) (gates_in gates.old.items) (x, assign_of assign.now) o h) result
        gates.new.items }
{
    let assigned = build_assign(alloc, gates, rows, assign)?;
    let terms = terms_outside(alloc, domain, &assigned)?;
    one_of_alls(alloc, gates, &terms)
}

// The terms of the values outside the domain.
fn terms_outside(
    alloc: Global,
    domain: &Domain,
    assigned: &BuiltAssign,
) -> Result<Vec<Vec<Operand>>, Memory>
    requires { IsDomain domain.now }
    ensures { IfOk result (λ terms. terms_in terms.items ≡ outside_terms (values_of domain.now)
        (signs_in assigned.now.conditions) (row_in assigned.now.entries)) }
{
    let mut terms = Vec::new(alloc);
    for entry in &assigned.entries {
        if !domain.holds(entry.value) {
            let term = behind(alloc, &assigned.conditions, &[entry.operand])?;
            terms.push(term)?;
        }
    }
    Ok(terms)
}

// For each assignment, that it is reached and its value is not that of its target.
pub(crate) fn broken(
    alloc: Global,
    gates: &mut Vec<Gate>,
    rows: &[Vec<Entry>],
    assigns: &[Assign],
) -> Result<Vec<Operand>, BuildFault>
    requires few { length gates.old.items ≤ most_gates }
    requires under { (a : FlatAssign) → IsOneOf assigns.now a → a.target.n < length rows.now }
    ensures { GivesEach signs_in assign_of (Sees_broken (row_at rows.now))
        (gates_in gates.old.items) assigns.now
        result gates.new.items }
{
    let mut seen = Vec::new(alloc);
    for assign in assigns {
        let operand = breaks(alloc, gates, rows, assign)?;
        seen.push(operand)?;
    }
    Ok(seen)
}

// An assignment is reached, and its value is not that of its target.
fn breaks(
    alloc: Global,
    gates: &mut Vec<Gate>,
    rows: &[Vec<Entry>],
    assign: &Assign,
) -> Result<Operand, BuildFault>
    requires few { length gates.old.items ≤ most_gates }
    requires under { assign.now.target.n < length rows.now }
    ensures { GivesOperand (λ o h. Sees_broken (row_at rows.now) (gates_in gates.old.items)
        (assign_of assign.now) o h)
        result gates.new.items }
{
    let assigned = build_assign(alloc, gates, rows, assign)?;
    let terms = terms_broken(alloc, &assigned, &rows[assign.target.n as usize])?;
    one_of_alls(alloc, gates, &terms)
}

// The pairs of an entry of the assignment's value and an entry of its target with another value.
fn terms_broken(
    alloc: Global,
    assigned: &BuiltAssign,
    row: &[Entry],
) -> Result<Vec<Vec<Operand>>, Memory>
    ensures { IfOk result (λ terms. terms_in terms.items ≡ broken_terms
        (signs_in assigned.now.conditions) (row_in assigned.now.entries) (entries_in row.now)) }
{
    let mut terms = Vec::new(alloc);
    for entry in &assigned.entries {
        push_others(alloc, &mut terms, &assigned.conditions, *entry, row)?;
    }
    Ok(terms)
}
