//! What the conditions and the expression of an assignment come to.

ghost use Rattle.std.specs.Prelude.{◌≡◌, ◌≤◌, ◌++◌, OnOk, IfOk, [], length, map};
ghost use Rattle.domains.specs.Domains.{IsDomain, values_of};
ghost use Rattle.eq_core.specs.Views.{operand_of};
ghost use Rattle.eq_build.specs.Entries.{with_terms};
ghost use Rattle.eq_build.specs.BuildsInside.{most_gates};
ghost use Rattle.eq_build.specs.Views.{entries_in, lists_in, operands_in, gates_in, row_at};
ghost use Rattle.gts_core.specs.View.{numbered, condition_of, assign_of};
ghost use Rattle.eq_build.specs.Steps.{as_terms, together, given_terms, Builds_conditions, Gives_target};
ghost use Rattle.tree_equations.specs.Answers.{Gives, GivesBuilt, GivesAssign, row_in, signs_in};

use ar_base::{Memory, VarId};
use domains::{Domain, Value};
use eq_build::{BuildFault, Entry, Groups, build, operand_for};
use eq_core::{Gate, Operand};
use gts_core::Assign;
use std::alloc::Global;
use typed_expr::Expr;

// The operands of an assignment's conditions, and the entries of its expression.
#[derive(Drop)]
pub(crate) struct BuiltAssign {
    pub(crate) conditions: Vec<Operand>,
    pub(crate) entries: Vec<Entry>,
}

// The entries of an expression.
pub(crate) fn built(
    alloc: Global,
    gates: &mut Vec<Gate>,
    rows: &[Vec<Entry>],
    expr: &Expr<VarId>,
) -> Result<Vec<Entry>, BuildFault>
    requires { length gates.old.items ≤ most_gates }
    ensures { GivesBuilt (row_at rows.now) (gates_in gates.old.items) (numbered expr.now) result
        gates.new.items }
{
    build(alloc, gates, rows, expr)
}

// The conditions, and then the expression.
pub(crate) fn build_assign(
    alloc: Global,
    gates: &mut Vec<Gate>,
    rows: &[Vec<Entry>],
    assign: &Assign,
) -> Result<BuiltAssign, BuildFault>
    requires { length gates.old.items ≤ most_gates }
    ensures { GivesAssign (row_at rows.now) (gates_in gates.old.items) (assign_of assign.now) result
        gates.new.items }
{
    let conditions = conditions(alloc, gates, rows, &assign.when)?;
    let entries = built(alloc, gates, rows, &assign.value)?;
    Ok(BuiltAssign {
        conditions,
        entries,
    })
}

// The operand of each condition, from the outermost inward.
fn conditions(
    alloc: Global,
    gates: &mut Vec<Gate>,
    rows: &[Vec<Entry>],
    conditions: &[(Expr<VarId>, bool)],
) -> Result<Vec<Operand>, BuildFault>
    requires { length gates.old.items ≤ most_gates }
    ensures { Gives signs_in (λ os h. Builds_conditions (row_at rows.now) (gates_in gates.old.items)
        (map condition_of conditions.now) os h) result gates.new.items }
{
    let mut operands = Vec::new(alloc);
    for (test, wanted) in conditions {
        let entries = built(alloc, gates, rows, test)?;
        operands.push(operand_for(&entries, Value::Truth(*wanted)))?;
    }
    Ok(operands)
}

// The entries that an assignment gives its target, whose domain this is.
pub(crate) fn given(
    alloc: Global,
    gates: &mut Vec<Gate>,
    rows: &[Vec<Entry>],
    domain: &Domain,
    assign: &Assign,
) -> Result<Vec<Entry>, BuildFault>
    requires few { length gates.old.items ≤ most_gates }
    requires domain { IsDomain domain.now }
    ensures { Gives row_in (λ es h. Gives_target (row_at rows.now) (values_of domain.now)
        (gates_in gates.old.items) (assign_of assign.now) es h) result gates.new.items }
{
    let assigned = build_assign(alloc, gates, rows, assign)?;
    let groups = given_groups(alloc, domain, &assigned)?;
    groups.entries(alloc, gates)
}

// The terms of the values inside the domain.
fn given_groups(alloc: Global, domain: &Domain, assigned: &BuiltAssign) -> Result<Groups, Memory>
    requires { IsDomain domain.now }
    ensures { IfOk result (λ groups. groups ≡ with_terms (given_terms (values_of domain.now)
        (signs_in assigned.now.conditions) (row_in assigned.now.entries)) []) }
{
    let mut groups = Groups::new(alloc);
    for entry in &assigned.entries {
        if domain.holds(entry.value) {
            let term = behind(alloc, &assigned.conditions, &[entry.operand])?;
            groups.put(alloc, entry.value, &term)?;
        }
    }
    Ok(groups)
}

// Operands, and more of them behind.
pub(crate) fn behind(
    alloc: Global,
    front: &[Operand],
    back: &[Operand],
) -> Result<Vec<Operand>, Memory>
    ensures { IfOk result (λ os. operands_in os.items ≡ operands_in front.now
        ++ operands_in back.now) }
{
    let mut operands = Vec::from_slice(alloc, front)?;
    operands.extend_from_slice(back)?;
    Ok(operands)
}

// Each entry as a term of its own.
pub(crate) fn put_all(alloc: Global, groups: &mut Groups, entries: &[Entry]) -> Result<(), Memory>
    ensures { OnOk result (groups.new ≡ with_terms (as_terms (entries_in entries.now)) groups.old) }
{
    for entry in entries {
        groups.put(alloc, entry.value, &[entry.operand])?;
    }
    Ok(())
}

// The entries of all of these lists as terms.
pub(crate) fn together(alloc: Global, lists: &[Vec<Entry>]) -> Result<Groups, Memory>
    ensures { IfOk result (λ groups. groups ≡ with_terms (together (lists_in lists.now)) []) }
{
    let mut groups = Groups::new(alloc);
    for list in lists {
        put_all(alloc, &mut groups, list)?;
    }
    Ok(groups)
}
