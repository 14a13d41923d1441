//! The assignments of instructions.

ghost use Rattle.std.specs.Prelude.{◌≡◌, OnOk, IfOk};
ghost use Rattle.gts_core.specs.Bound.{assigns_of_act, places_of_act, places_in, AreAssigns, GivesAssigns, GiveAll, AreConditionCopies, conditions_in};

use crate::bound::Act;
use crate::copies::copy_expression;
use crate::system::Assign;
use ar_base::{Memory, VarId};
use std::alloc::Global;
use typed_expr::Expr;

/// The assignments of an instruction in order, with their conditions from the outermost inward, each at its place. The error
/// is want of memory.
pub fn assignments(alloc: Global, act: &Act) -> Result<Vec<Assign>, Memory>
    ensures assigns { IfOk result (λ v. AreAssigns (assigns_of_act act.now) v.items) }
    ensures places { IfOk result (λ v. places_in v.items ≡ places_of_act act.now) }
{
    let mut out = Vec::new(alloc);
    let mut when = Vec::new(alloc);
    assigned(alloc, act, &mut when, &mut out)?;
    Ok(out)
}

// Puts the assignments of an instruction under these conditions behind the others. The conditions are borrowed, and copied
// where there is an assignment; afterwards they are what they were.
#[cycle(assigned)]
fn assigned<'a>(
    alloc: Global,
    act: &'a Act,
    when: &mut Vec<(&'a Expr<VarId>, bool)>,
    out: &mut Vec<Assign>,
) -> Result<(), Memory>
    ensures given { OnOk result (GivesAssigns act.now (conditions_in when.old.items) out.old.items out.new.items) }
    ensures kept { OnOk result (when.new.items ≡ when.old.items) }
{
    match act {
        Act::Skip => Ok(()),
        Act::Set(target, value, at) => {
            let conditions = copied(alloc, when)?;
            let value = copy_expression(alloc, value)?;
            out.push(Assign {
                target: *target,
                when: conditions,
                value,
                at: *at,
            })?;
            Ok(())
        }
        Act::If(test, first, second) => {
            when.push((test, true))?;
            assigned(alloc, first, when, out)?;
            when.pop();
            when.push((test, false))?;
            assigned(alloc, second, when, out)?;
            when.pop();
            Ok(())
        }
        Act::All(acts) => all_assigned(alloc, acts, when, out),
    }
}

// The same for instructions one after the other.
#[cycle(assigned)]
fn all_assigned<'a>(
    alloc: Global,
    acts: &'a [Act],
    when: &mut Vec<(&'a Expr<VarId>, bool)>,
    out: &mut Vec<Assign>,
) -> Result<(), Memory>
    ensures given { OnOk result (GiveAll acts.now (conditions_in when.old.items) out.old.items out.new.items) }
    ensures kept { OnOk result (when.new.items ≡ when.old.items) }
{
    for act in acts {
        assigned(alloc, act, when, out)?;
    }
    Ok(())
}

// Copies of conditions.
fn copied(alloc: Global, when: &[(&Expr<VarId>, bool)]) -> Result<Vec<(Expr<VarId>, bool)>, Memory>
    ensures { IfOk result (λ v. AreConditionCopies (conditions_in when.now) v.items) }
{
    let mut out = Vec::new(alloc);
    for (test, truth) in when {
        let test = copy_expression(alloc, test)?;
        out.push((test, *truth))?;
    }
    Ok(out)
}
