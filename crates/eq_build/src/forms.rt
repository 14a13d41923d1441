//! The entries that the forms of expressions make of those of their operands.

ghost use Rattle.std.specs.Prelude.{◌≡◌, ◌≤◌, OnOk, IfOk, length, map};
ghost use Rattle.eq_core.specs.Views.{operand_of};
ghost use Rattle.eq_build.specs.Entries.{with_terms, pair_term, combined, folded, led, with_step, with_signs, entries_for, opposite_terms, apart, each_for, joint_terms, behind, case_terms, chosen};
ghost use Rattle.eq_build.specs.BuildsInside.{most_gates};
ghost use Rattle.eq_build.specs.Views.{entry_of, entries_in, operands_in, gates_in, lists_in, signed_parts_in, cases_in, MakesEntries};

use crate::entries::{BuildFault, Entry, operand_for};
use crate::groups::Groups;
use crate::steps::{Step, result_of, truth};
use ar_base::Memory;
use domains::Value;
use eq_core::{Gate, Operand};
use std::alloc::Global;

// A negation's entries.
pub(crate) fn turned(
    alloc: Global,
    gates: &mut Vec<Gate>,
    entries: &[Entry],
) -> Result<Vec<Entry>, BuildFault>
    requires { length gates.old.items ≤ most_gates }
    ensures { MakesEntries (entries_for (gates_in gates.old.items)
        (opposite_terms (entries_in entries.now)))
        result gates.new.items }
{
    let mut groups = Groups::new(alloc);
    for entry in entries {
        groups.put(alloc, Value::Truth(!truth(entry.value)), &[entry.operand])?;
    }
    groups.entries(alloc, gates)
}

// The entries of a conjunction, where all operands are needed, or of a disjunction.
pub(crate) fn joined(
    alloc: Global,
    gates: &mut Vec<Gate>,
    all_needed: bool,
    operands: &[Vec<Entry>],
) -> Result<Vec<Entry>, BuildFault>
    requires { length gates.old.items ≤ most_gates }
    ensures { MakesEntries (entries_for (gates_in gates.old.items)
        (joint_terms all_needed (lists_in operands.now))) result gates.new.items }
{
    let mut groups = Groups::new(alloc);
    put_apart(alloc, &mut groups, Value::Truth(!all_needed), operands)?;
    let each = each_for(alloc, Value::Truth(all_needed), operands)?;
    groups.put(alloc, Value::Truth(all_needed), &each)?;
    groups.entries(alloc, gates)
}

// Each operand's operand for the value, as a term of its own.
fn put_apart(
    alloc: Global,
    groups: &mut Groups,
    value: Value,
    operands: &[Vec<Entry>],
) -> Result<(), Memory>
    ensures { OnOk result (groups.new
        ≡ with_terms (apart value (each_for value (lists_in operands.now))) groups.old) }
{
    for entries in operands {
        groups.put(alloc, value, &[operand_for(entries, value)])?;
    }
    Ok(())
}

// Each operand's operand for the value.
fn each_for(alloc: Global, value: Value, operands: &[Vec<Entry>]) -> Result<Vec<Operand>, Memory>
    ensures { IfOk result (λ os. operands_in os.items ≡ each_for value (lists_in operands.now)) }
{
    let mut each = Vec::new(alloc);
    for entries in operands {
        each.push(operand_for(entries, value))?;
    }
    Ok(each)
}

// The entries of what pairs make.
pub(crate) fn combined(
    alloc: Global,
    gates: &mut Vec<Gate>,
    step: Step,
    left: &[Entry],
    right: &[Entry],
) -> Result<Vec<Entry>, BuildFault>
    requires { length gates.old.items ≤ most_gates }
    ensures { MakesEntries (combined step (gates_in gates.old.items) (entries_in left.now)
        (entries_in right.now))
        result gates.new.items }
{
    let mut groups = Groups::new(alloc);
    for a in left {
        put_pairs(alloc, &mut groups, step, *a, right)?;
    }
    groups.entries(alloc, gates)
}

// One entry with each of these.
fn put_pairs(
    alloc: Global,
    groups: &mut Groups,
    step: Step,
    a: Entry,
    right: &[Entry],
) -> Result<(), Memory>
    ensures { OnOk result (groups.new
        ≡ with_terms (map (pair_term step (entry_of a)) (entries_in right.now)) groups.old) }
{
    for b in right {
        groups.put(
            alloc,
            result_of(step, a.value, b.value),
            &[a.operand, b.operand],
        )?;
    }
    Ok(())
}

// A fold from these entries on, each operand by the same step.
pub(crate) fn folded(
    alloc: Global,
    gates: &mut Vec<Gate>,
    start: &[Entry],
    step: Step,
    operands: &[Vec<Entry>],
) -> Result<Vec<Entry>, BuildFault>
    requires { length gates.old.items ≤ most_gates }
    ensures { MakesEntries (folded (gates_in gates.old.items) (entries_in start.now)
        (with_step step (lists_in operands.now))) result gates.new.items }
{
    let mut so_far = Vec::from_slice(alloc, start)?;
    for entries in operands {
        let next = combined(alloc, gates, step, &so_far, entries)?;
        so_far = next;
    }
    Ok(so_far)
}

// The same from the first operand on.
pub(crate) fn led(
    alloc: Global,
    gates: &mut Vec<Gate>,
    step: Step,
    operands: &[Vec<Entry>],
) -> Result<Vec<Entry>, BuildFault>
    requires { length gates.old.items ≤ most_gates }
    ensures { MakesEntries (led step (gates_in gates.old.items) (lists_in operands.now)) result
        gates.new.items }
{
    match operands.split_first() {
        Some((first, rest)) => folded(alloc, gates, first, step, rest),
        None => Ok(Vec::new(alloc)),
    }
}

// A sum from these entries on.
pub(crate) fn summed(
    alloc: Global,
    gates: &mut Vec<Gate>,
    start: &[Entry],
    parts: &[(bool, Vec<Entry>)],
) -> Result<Vec<Entry>, BuildFault>
    requires { length gates.old.items ≤ most_gates }
    ensures { MakesEntries (folded (gates_in gates.old.items) (entries_in start.now)
        (with_signs (signed_parts_in parts.now))) result gates.new.items }
{
    let mut so_far = Vec::from_slice(alloc, start)?;
    for (plus, entries) in parts {
        let next = combined(alloc, gates, Step::Part(*plus), &so_far, entries)?;
        so_far = next;
    }
    Ok(so_far)
}

// The entries of a choice, from the last case to the first.
pub(crate) fn chosen(
    alloc: Global,
    gates: &mut Vec<Gate>,
    cases: Vec<(Vec<Entry>, Vec<Entry>)>,
    other: Vec<Entry>,
) -> Result<Vec<Entry>, BuildFault>
    requires { length gates.old.items ≤ most_gates }
    ensures { MakesEntries (chosen (gates_in gates.old.items) (cases_in cases.items)
        (entries_in other.items))
        result gates.new.items }
{
    let mut cases = cases;
    let mut so_far = other;
    while let Some((test, value)) = cases.pop() {
        let next = with_case(alloc, gates, &test, &value, &so_far)?;
        so_far = next;
    }
    Ok(so_far)
}

// A case's value where its test is true, and the rest where it is false.
fn with_case(
    alloc: Global,
    gates: &mut Vec<Gate>,
    test: &[Entry],
    value: &[Entry],
    rest: &[Entry],
) -> Result<Vec<Entry>, BuildFault>
    requires { length gates.old.items ≤ most_gates }
    ensures { MakesEntries (entries_for (gates_in gates.old.items)
        (case_terms (entries_in test.now) (entries_in value.now) (entries_in rest.now))) result
        gates.new.items }
{
    let mut groups = Groups::new(alloc);
    put_behind(
        alloc,
        &mut groups,
        operand_for(test, Value::Truth(true)),
        value,
    )?;
    put_behind(
        alloc,
        &mut groups,
        operand_for(test, Value::Truth(false)),
        rest,
    )?;
    groups.entries(alloc, gates)
}

// Each entry behind one more operand.
fn put_behind(
    alloc: Global,
    groups: &mut Groups,
    operand: Operand,
    entries: &[Entry],
) -> Result<(), Memory>
    ensures { OnOk result (groups.new
        ≡ with_terms (behind (operand_of operand) (entries_in entries.now)) groups.old) }
{
    for entry in entries {
        groups.put(alloc, entry.value, &[operand, entry.operand])?;
    }
    Ok(())
}
