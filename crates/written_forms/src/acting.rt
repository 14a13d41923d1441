//! The bound instructions that written ones become.

ghost use Rattle.std.specs.Prelude.{IfOk};
ghost use Rattle.ar_syntax.specs.declared.instructions.Instr.{out-Instr};
ghost use Rattle.ar_syntax.specs.declared.instructions.Instr.TheOpen.{Assign as AssignForm, Tie as TieForm};
ghost use Rattle.written_forms.specs.Acting.{ActsAs, All_act, IsConditional};

use crate::{Leaf, Leaves, both_ways, translated};
use ar_base::Memory;
use ar_syntax::{Instr, Path, RawExpr};
use gts_core::Act;
use std::alloc::Global;

/// The bound instruction that a written one becomes, where its paths stand for these variables and
/// values.
///
/// A `:=:` becomes its two assignments, the one to its left path first. What assigns or ties a path
/// that stands for a value becomes nothing. The error is want of memory.
#[cycle(acts)]
pub fn acted<L: Leaves>(alloc: Global, instr: &Instr, leaves: &L) -> Result<Act, Memory>
    requires { L.is_sound leaves.now }
    ensures { IfOk result (ActsAs (L.leaf_at leaves.now) (out-Instr instr.now)) }
{
    match instr {
        Instr::Skip => Ok(Act::Skip),
        Instr::Assign(path, value) => assigned(alloc, path, value, leaves),
        Instr::Tie(left, right) => tied(alloc, left, right, leaves),
        Instr::If(test, first, second) => {
            let here = acted(alloc, first, leaves)?;
            match second {
                None => conditional(alloc, test, here, Act::Skip, leaves),
                Some(other) => {
                    let there = acted(alloc, other, leaves)?;
                    conditional(alloc, test, here, there, leaves)
                }
            }
        }
        Instr::All(instrs) => Ok(Act::All(all_acted(alloc, instrs, leaves)?)),
    }
}

// What several instructions become, one after the other.
#[cycle(acts)]
fn all_acted<L: Leaves>(alloc: Global, instrs: &[Instr], leaves: &L) -> Result<Vec<Act>, Memory>
    requires { L.is_sound leaves.now }
    ensures { IfOk result (λ v. All_act (L.leaf_at leaves.now) instrs.now v.items) }
{
    let mut out = Vec::new(alloc);
    for instr in instrs {
        let next = acted(alloc, instr, leaves)?;
        out.push(next)?;
    }
    Ok(out)
}

// What a `:=` becomes.
fn assigned<L: Leaves>(
    alloc: Global,
    path: &Path,
    value: &RawExpr,
    leaves: &L,
) -> Result<Act, Memory>
    requires { L.is_sound leaves.now }
    ensures { IfOk result (ActsAs (L.leaf_at leaves.now) (AssignForm path.now value.now)) }
{
    match leaves.leaf(path) {
        Leaf::Constant(_) => Ok(Act::Skip),
        Leaf::Variable(target) => {
            let bound = translated(alloc, value, leaves)?;
            Ok(Act::Set(target, bound, path.at))
        }
    }
}

// What a `:=:` becomes.
fn tied<L: Leaves>(alloc: Global, left: &Path, right: &Path, leaves: &L) -> Result<Act, Memory>
    requires { L.is_sound leaves.now }
    ensures { IfOk result (ActsAs (L.leaf_at leaves.now) (TieForm left.now right.now)) }
{
    match leaves.leaf(left) {
        Leaf::Constant(_) => Ok(Act::Skip),
        Leaf::Variable(first) => match leaves.leaf(right) {
            Leaf::Constant(_) => Ok(Act::Skip),
            Leaf::Variable(second) => both_ways(alloc, first, left.at, second, right.at),
        },
    }
}

// The conditional of a written test and two branches.
fn conditional<L: Leaves>(
    alloc: Global,
    test: &RawExpr,
    first: Act,
    second: Act,
    leaves: &L,
) -> Result<Act, Memory>
    requires { L.is_sound leaves.now }
    ensures { IfOk result (IsConditional (L.leaf_at leaves.now) test.now first second) }
{
    let here = Box::new(alloc, first)?;
    let there = Box::new(alloc, second)?;
    let bound = translated(alloc, test, leaves)?;
    Ok(Act::If(bound, here, there))
}
