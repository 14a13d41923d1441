//! The values that an expression yields from facts.

ghost use Rattle.std.specs.Prelude.{◌≡◌, IfOk, Contains, MatchOption, ⊤};
ghost use Rattle.domains.specs.Values.{IsAscending};
ghost use Rattle.typed_expr.specs.declared.expr.Expr.{out-Expr};
ghost use Rattle.typed_expr.specs.Sets.{HasExactly, KeepsLimit};
ghost use Rattle.typed_expr.specs.Yields.{Yields};
ghost use Rattle.typed_expr.specs.YieldsInside.{facts_of};
ghost use Rattle.typed_expr.specs.Possible.{IsWide};
ghost use Rattle.typed_expr.specs.Evaluating.{Evaluates, TellsAnswer, Tallies, Steps, Folds, Sums, Chooses, Joins};

use crate::budget::Budget;
use crate::env::Env;
use crate::expr::Expr;
use crate::fold::{Step, start_value};
use crate::relations::some_related;
use crate::sets::{both, either, gathered, joined_where, stepped, truth_set};
use crate::value_set::{Stop, ValueSet, has_value};
use ar_base::Memory;
use domains::Value;
use std::alloc::Global;

/// The values that an expression yields from the environment's facts, ascending and each once.
///
/// The expression is to be well typed. A conjunction or disjunction yields false or true where one
/// operand does, and the other value where all do; a choice yields what the branches yield that its
/// tests take; any other form yields its results over all choices of one yielded value for each
/// operand. The error is want of memory, and a budget of the evaluation's own that is spent.
pub fn eval_set<V, E: Env<V>>(alloc: Global, expr: &Expr<V>, env: &E) -> Result<ValueSet, Memory>
    ensures yields { IfOk result
        (λ set. HasExactly set (Yields (facts_of (E.facts_at env.now)) (out-Expr V expr.now))) }
    ensures ascending { IfOk result IsAscending }
{
    eval_set_within(alloc, expr, env, &mut Budget::for_facts())
}

/// What [`eval_set`] answers, within a budget that several evaluations share.
pub fn eval_set_within<V, E: Env<V>>(
    alloc: Global,
    expr: &Expr<V>,
    env: &E,
    budget: &mut Budget,
) -> Result<ValueSet, Memory>
    ensures yields { IfOk result
        (λ set. HasExactly set (Yields (facts_of (E.facts_at env.now)) (out-Expr V expr.now))) }
    ensures ascending { IfOk result IsAscending }
{
    match yielded(alloc, expr, env, None, budget) {
        Ok(set) => Ok(set),
        Err(Stop::NoMemory(memory)) => Err(memory),
        Err(Stop::TooMany) => unreachable!(),
    }
}

/// The values that an expression may have, where the facts of the environment are the variables'
/// whole domains, or None where a subexpression or a step of a fold has more than `most`.
///
/// The steps of a fold are what it may have come to after its first operands, none of them
/// included. The error is want of memory, and a budget that is spent.
pub fn possible_values<V, E: Env<V>>(
    alloc: Global,
    expr: &Expr<V>,
    env: &E,
    most: u32,
    budget: &mut Budget,
) -> Result<Option<ValueSet>, Memory>
    ensures yields { IfOk result (λ found. MatchOption found
        (IsWide (facts_of (E.facts_at env.now)) most (out-Expr V expr.now))
        (λ set. HasExactly set (Yields (facts_of (E.facts_at env.now)) (out-Expr V expr.now)))) }
    ensures narrow { IfOk result (λ found. MatchOption found ⊤
        (λ set. IsWide (facts_of (E.facts_at env.now)) most (out-Expr V expr.now) → ⊥)) }
    ensures ascending { IfOk result (λ found. MatchOption found ⊤ IsAscending) }
{
    match yielded(alloc, expr, env, Some(most), budget) {
        Ok(set) => Ok(Some(set)),
        Err(Stop::TooMany) => Ok(None),
        Err(Stop::NoMemory(memory)) => Err(memory),
    }
}

// The values that an expression yields, where nothing in it is too wide for the limit.
#[cycle(yielded)]
fn yielded<V, E: Env<V>>(
    alloc: Global,
    expr: &Expr<V>,
    env: &E,
    most: Option<u32>,
    budget: &mut Budget,
) -> Result<ValueSet, Stop>
    ensures { Evaluates (facts_of (E.facts_at env.now)) most result (out-Expr V expr.now) }
{
    match expr {
        Expr::Constant(v) => gathered(alloc, &[*v], most, budget),
        Expr::Variable(x) => gathered(alloc, env.facts(x), most, budget),
        Expr::Not(a) => {
            let (can_be_true, can_be_false) = truths(alloc, a, env, most, budget, true)?;
            truth_set(alloc, can_be_false, can_be_true, most)
        }
        Expr::All(es) => {
            let (one_false, all_true) = tally(alloc, es, env, most, budget, true)?;
            truth_set(alloc, one_false, all_true, most)
        }
        Expr::Any(es) => {
            let (one_true, all_false) = tally(alloc, es, env, most, budget, false)?;
            truth_set(alloc, all_false, one_true, most)
        }
        Expr::Compare(relation, a, b) => {
            let left = yielded(alloc, a, env, most, budget)?;
            let right = yielded(alloc, b, env, most, budget)?;
            let can_be_false = some_related(*relation, left.values(), right.values(), false);
            let can_be_true = some_related(*relation, left.values(), right.values(), true);
            truth_set(alloc, can_be_false, can_be_true, most)
        }
        Expr::Sum(parts) => summed(alloc, parts, env, most, budget),
        Expr::Product(es) => folded(alloc, es, env, most, budget, Step::Times),
        Expr::Least(es) => folded(alloc, es, env, most, budget, Step::Lesser),
        Expr::Greatest(es) => folded(alloc, es, env, most, budget, Step::Greater),
        Expr::Count(es) => folded(alloc, es, env, most, budget, Step::Counted),
        Expr::Choose(cases, other) => {
            let (set, passes) = chosen(alloc, cases, env, most, budget)?;
            with_branch(alloc, other, env, most, budget, passes, set)
        }
    }
}

// Whether one operand yields the opposite truth value, and whether each yields this one.
#[cycle(yielded)]
fn tally<V, E: Env<V>>(
    alloc: Global,
    es: &[Expr<V>],
    env: &E,
    most: Option<u32>,
    budget: &mut Budget,
    b: bool,
) -> Result<(bool, bool), Stop>
    ensures { Tallies (facts_of (E.facts_at env.now)) most b result es.now }
{
    let mut one_other = false;
    let mut each = true;
    for e in es {
        let (other, this) = truths(alloc, e, env, most, budget, b)?;
        one_other = either(one_other, other);
        each = both(each, this);
        if one_other && !each && most.is_none() {
            return Ok((true, false));
        }
    }
    Ok((one_other, each))
}

// Whether an operand yields the opposite truth value, and whether it yields this one. The facts of a variable are looked at
// where they stand, and no set is made of them.
#[cycle(yielded)]
fn truths<V, E: Env<V>>(
    alloc: Global,
    e: &Expr<V>,
    env: &E,
    most: Option<u32>,
    budget: &mut Budget,
    b: bool,
) -> Result<(bool, bool), Stop>
    ensures { TellsAnswer (facts_of (E.facts_at env.now)) most b result (out-Expr V e.now) }
{
    if most.is_none() {
        if let Expr::Variable(x) = e {
            let facts = env.facts(x);
            budget.spend(facts.len())?;
            return Ok((
                has_value(facts, Value::Truth(!b)),
                has_value(facts, Value::Truth(b)),
            ));
        }
    }
    let set = yielded(alloc, e, env, most, budget)?;
    Ok((set.has(Value::Truth(!b)), set.has(Value::Truth(b))))
}

// The fold over one value for each operand.
#[cycle(yielded)]
fn folded<V, E: Env<V>>(
    alloc: Global,
    es: &[Expr<V>],
    env: &E,
    most: Option<u32>,
    budget: &mut Budget,
    step: Step,
) -> Result<ValueSet, Stop>
    ensures { Folds (facts_of (E.facts_at env.now)) most step result es.now }
{
    let mut so_far = gathered(alloc, &[start_value(step)], most, budget)?;
    let mut first = true;
    for e in es {
        let more = with_operand(alloc, e, env, most, budget, step, first, so_far)?;
        so_far = more;
        first = false;
        if so_far.is_empty() && most.is_none() {
            return Ok(so_far);
        }
    }
    Ok(so_far)
}

// The sums over one value for each part.
#[cycle(yielded)]
fn summed<V, E: Env<V>>(
    alloc: Global,
    parts: &[(bool, Expr<V>)],
    env: &E,
    most: Option<u32>,
    budget: &mut Budget,
) -> Result<ValueSet, Stop>
    ensures { Sums (facts_of (E.facts_at env.now)) most result parts.now }
{
    let mut so_far = gathered(alloc, &[Value::Whole(0)], most, budget)?;
    for (plus, e) in parts {
        let more = with_operand(
            alloc,
            e,
            env,
            most,
            budget,
            Step::Part(*plus),
            false,
            so_far,
        )?;
        so_far = more;
        if so_far.is_empty() && most.is_none() {
            return Ok(so_far);
        }
    }
    Ok(so_far)
}

// What a fold comes to with one more operand, from the set of what it came to before.
#[cycle(yielded)]
fn with_operand<V, E: Env<V>>(
    alloc: Global,
    e: &Expr<V>,
    env: &E,
    most: Option<u32>,
    budget: &mut Budget,
    step: Step,
    first: bool,
    so_far: ValueSet,
) -> Result<ValueSet, Stop>
    ensures { Steps (facts_of (E.facts_at env.now)) most step first so_far result (out-Expr V e.now) }
{
    let set = yielded(alloc, e, env, most, budget)?;
    stepped(
        alloc,
        step,
        first,
        so_far.values(),
        set.values(),
        most,
        budget,
    )
}

// What the cases yield that their tests take, and whether the tests pass them all.
#[cycle(yielded)]
fn chosen<V, E: Env<V>>(
    alloc: Global,
    cases: &[(Expr<V>, Expr<V>)],
    env: &E,
    most: Option<u32>,
    budget: &mut Budget,
) -> Result<(ValueSet, bool), Stop>
    ensures { Chooses (facts_of (E.facts_at env.now)) most result cases.now }
{
    let mut so_far = ValueSet::new(alloc);
    let mut passes = true;
    for (test, value) in cases {
        let (can_pass, can_take) = truths(alloc, test, env, most, budget, true)?;
        let takes = both(passes, can_take);
        let more = with_branch(alloc, value, env, most, budget, takes, so_far)?;
        so_far = more;
        passes = both(passes, can_pass);
        if !passes && most.is_none() {
            return Ok((so_far, false));
        }
    }
    Ok((so_far, passes))
}

// The set with what a branch yields put in, where it is taken.
#[cycle(yielded)]
fn with_branch<V, E: Env<V>>(
    alloc: Global,
    value: &Expr<V>,
    env: &E,
    most: Option<u32>,
    budget: &mut Budget,
    takes: bool,
    set: ValueSet,
) -> Result<ValueSet, Stop>
    requires { KeepsLimit most set }
    ensures { Joins (facts_of (E.facts_at env.now)) most result takes set (out-Expr V value.now) }
{
    if !takes && most.is_none() {
        return Ok(set);
    }
    let values = yielded(alloc, value, env, most, budget)?;
    joined_where(alloc, takes, set, &values, most, budget)
}
