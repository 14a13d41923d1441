//! Sets made of sets.

ghost use Rattle.std.specs.Prelude.{◌≡◌, ◌↔◌, ◌⊎◌, IsTrue, IfOk, OnOk, Contains, [], ◌∷◌};
ghost use Rattle.domains.specs.Values.{whole_of};
ghost use Rattle.domains.specs.declared.Value.TheVariants.{Whole};
ghost use Rattle.typed_expr.specs.Folds.{next_of};
ghost use Rattle.typed_expr.specs.Sets.{Gathers, HasExactly, KeepsLimit};
ghost use Rattle.typed_expr.specs.Evaluating.{IsTruth, IsNextOperand};

use crate::budget::Budget;
use crate::fold::{Step, next};
use crate::value_set::{Stop, ValueSet};
use ar_base::{Cap, Memory};
use domains::Value;
use std::alloc::Global;

// The most results of one step of a fold, each value of what it has come to with each of the next operand.
const MOST_RESULTS: usize = 8_388_608;

// As many values as are put in one by one; more are sorted first.
const FEW: usize = 64;

// The set of these values, which the budget allows.
pub(crate) fn gathered(
    alloc: Global,
    values: &[Value],
    most: Option<u32>,
    budget: &mut Budget,
) -> Result<ValueSet, Stop>
    ensures { Gathers most result (Contains values.now) }
{
    budget.spend(values.len())?;
    set_of(alloc, values, most)
}

// The set of these values.
fn set_of(alloc: Global, values: &[Value], most: Option<u32>) -> Result<ValueSet, Stop>
    ensures { Gathers most result (Contains values.now) }
{
    let out = joined(ValueSet::new(alloc), values, most)?;
    Ok(out)
}

// The set with these values put in.
fn joined(set: ValueSet, values: &[Value], most: Option<u32>) -> Result<ValueSet, Stop>
    requires { KeepsLimit most set }
    ensures { Gathers most result (λ v. Contains set v ⊎ Contains values.now v) }
{
    let mut set = set;
    for v in values {
        set.put(*v, most)?;
    }
    Ok(set)
}

// The values of both lists, in order.
fn together(alloc: Global, set: &[Value], values: &[Value]) -> Result<Vec<Value>, Memory>
    ensures { IfOk result (λ all. HasExactly all.items (λ v. Contains set.now v ⊎ Contains values.now v)) }
{
    let mut all = Vec::from_slice(alloc, set)?;
    all.extend_from_slice(values)?;
    all.sort()?;
    Ok(all)
}

// The set with the values of another put in, where they are wanted: one by one where they are few.
pub(crate) fn joined_where(
    alloc: Global,
    wanted: bool,
    set: ValueSet,
    more: &ValueSet,
    most: Option<u32>,
    budget: &mut Budget,
) -> Result<ValueSet, Stop>
    requires { KeepsLimit most set }
    ensures { Gathers most result (λ v. Contains set v ⊎ (IsTrue wanted × Contains more.now v)) }
{
    if !wanted {
        return Ok(set);
    }
    let values = more.values();
    budget.spend(set.values().len().saturating_add(values.len()))?;
    if values.len() <= FEW {
        return joined(set, values, most);
    }
    let all = together(alloc, set.values(), values)?;
    set_of(alloc, &all, most)
}

// Whether one of the two is true.
pub(crate) fn either(a: bool, b: bool) -> bool
    ensures { IsTrue result ↔ (IsTrue a ⊎ IsTrue b) }
{
    a || b
}

// Whether both are true.
pub(crate) fn both(a: bool, b: bool) -> bool
    ensures { IsTrue result ↔ (IsTrue a × IsTrue b) }
{
    a && b
}

// The set with false and true, each where it is asked for.
pub(crate) fn truth_set(
    alloc: Global,
    can_be_false: bool,
    can_be_true: bool,
    most: Option<u32>,
) -> Result<ValueSet, Stop>
    ensures { Gathers most result (IsTruth can_be_false can_be_true) }
{
    match (can_be_false, can_be_true) {
        (false, false) => set_of(alloc, &[], most),
        (true, false) => set_of(alloc, &[Value::Truth(false)], most),
        (false, true) => set_of(alloc, &[Value::Truth(true)], most),
        (true, true) => set_of(alloc, &[Value::Truth(false), Value::Truth(true)], most),
    }
}

// Each number with each value as the next operand.
pub(crate) fn stepped(
    alloc: Global,
    step: Step,
    first: bool,
    numbers: &[Value],
    values: &[Value],
    most: Option<u32>,
    budget: &mut Budget,
) -> Result<ValueSet, Stop>
    ensures { Gathers most result (IsNextOperand step first numbers.now values.now) }
{
    let count = numbers.len().saturating_mul(values.len());
    budget.spend(count)?;
    if count <= FEW || keeps_few(most) {
        return few_stepped(alloc, step, first, numbers, values, most);
    }
    if count > MOST_RESULTS {
        return Err(Stop::NoMemory(Memory::from(Cap::Results)));
    }
    let all = results(alloc, step, first, numbers, values)?;
    set_of(alloc, &all, most)
}

// Whether a set may have few values only, so that many results are few values, or soon too many.
fn keeps_few(most: Option<u32>) -> bool {
    match most {
        Some(most) => most as usize <= FEW,
        None => false,
    }
}

// The same, the results put in one by one.
fn few_stepped(
    alloc: Global,
    step: Step,
    first: bool,
    numbers: &[Value],
    values: &[Value],
    most: Option<u32>,
) -> Result<ValueSet, Stop>
    ensures { Gathers most result (IsNextOperand step first numbers.now values.now) }
{
    let mut set = ValueSet::new(alloc);
    for n in numbers {
        let more = stepped_from(set, step, first, *n, values, most)?;
        set = more;
    }
    Ok(set)
}

// The results of a step, each number with each value as the next operand, in order. They are made in a run for each value,
// which ascends or falls.
fn results(
    alloc: Global,
    step: Step,
    first: bool,
    numbers: &[Value],
    values: &[Value],
) -> Result<Vec<Value>, Memory>
    ensures { IfOk result (λ all. HasExactly all.items (IsNextOperand step first numbers.now values.now)) }
{
    let mut all = Vec::new(alloc);
    for v in values {
        add_results(&mut all, step, first, numbers, *v)?;
    }
    all.sort()?;
    Ok(all)
}

// Adds the results of each number with one value as the next operand.
fn add_results(
    all: &mut Vec<Value>,
    step: Step,
    first: bool,
    numbers: &[Value],
    v: Value,
) -> Result<(), Memory>
    ensures { OnOk result (HasExactly all.new.items
        (λ w. Contains all.old.items w ⊎ IsNextOperand step first numbers.now (v ∷ []) w)) }
{
    for n in numbers {
        all.push(next_value(step, first, *n, v))?;
    }
    Ok(())
}

// The set with one number and each value as the next operand.
fn stepped_from(
    set: ValueSet,
    step: Step,
    first: bool,
    n: Value,
    values: &[Value],
    most: Option<u32>,
) -> Result<ValueSet, Stop>
    requires { KeepsLimit most set }
    ensures { Gathers most result (λ v. Contains set v ⊎ IsNextOperand step first (n ∷ []) values.now v) }
{
    let mut set = set;
    for v in values {
        set.put(next_value(step, first, n, *v), most)?;
    }
    Ok(set)
}

// One number with one value as the next operand.
fn next_value(step: Step, first: bool, n: Value, v: Value) -> Value
    ensures { result ≡ Whole (next_of step first (whole_of n) v) }
{
    Value::Whole(next(step, first, n.whole(), v))
}
