//! Which assignments read which variable, and which give it a value.

ghost use Rattle.std.specs.Prelude.{◌≡◌, ◌<◌, ◌^◌, ℕ, map, IfOk};
ghost use Rattle.ar_base.specs.Lists.{IsOneOf, Stands};
ghost use Rattle.gts_core.specs.Sound.{IsSound};
ghost use Rattle.flow_propagate.specs.Plan.{ComesBefore, AreReaders, AreGivers, plain_pair};
ghost use Rattle.flow_propagate.specs.Named.{ArePairsSorted};

use crate::naming::add_readers;
use crate::pairs::{Runs, starts_of};
use ar_base::{AssignId, Memory, VarId};
use gts_core::GtsParts;
use std::alloc::Global;

// The pairs of a variable and an assignment that names it, ascending, each once.
pub(crate) fn readers(alloc: Global, parts: &GtsParts) -> Result<Vec<(u32, u32)>, Memory>
    requires { IsSound parts.now }
    ensures { IfOk result (λ pairs. AreReaders parts.now pairs.items) }
{
    let mut names = Vec::new(alloc);
    let mut pairs = Vec::new(alloc);
    for (place, assign) in parts.assigns.iter().enumerate() {
        add_readers(assign, place as u32, &mut names, &mut pairs)?;
    }
    Ok(ascending(pairs))
}

// The pairs of a variable and an assignment to it, ascending, each once.
pub(crate) fn givers(alloc: Global, parts: &GtsParts) -> Result<Vec<(u32, u32)>, Memory>
    requires { IsSound parts.now }
    ensures { IfOk result (λ pairs. AreGivers parts.now pairs.items) }
{
    let mut pairs = Vec::new(alloc);
    for (place, assign) in parts.assigns.iter().enumerate() {
        pairs.push((assign.target.n, place as u32))?;
    }
    Ok(ascending(pairs))
}

// The pairs, ascending, each once.
fn ascending(pairs: Vec<(u32, u32)>) -> Vec<(u32, u32)>
    ensures { ArePairsSorted pairs.items result.items }
{
    let mut pairs = pairs;
    pairs.sort_unstable();
    pairs.dedup();
    pairs
}

// Ascending pairs of variables below a count by typed numbers, and where those of each variable stand.
pub(crate) fn in_runs(alloc: Global, pairs: &[(u32, u32)], count: usize) -> Result<Runs, Memory>
    requires ascending { (j k : ℕ) (q r : ℕ × ℕ) → j < k → Stands pairs.now j q
        → Stands pairs.now k r → ComesBefore q r }
    requires below { (q : ℕ × ℕ) → IsOneOf pairs.now q → q.0 < count }
    requires few { count < 2 ^ 32 }
    ensures { IfOk result (λ runs. map plain_pair runs.pairs.items ≡ pairs.now) }
{
    let pairs = typed_pairs(alloc, pairs)?;
    let starts = starts_of(alloc, &pairs, count + 1)?;
    Ok(Runs { pairs, starts })
}

// The pairs by typed numbers.
fn typed_pairs(alloc: Global, pairs: &[(u32, u32)]) -> Result<Vec<(VarId, AssignId)>, Memory>
    ensures { IfOk result (λ typed. map plain_pair typed.items ≡ pairs.now) }
{
    let mut typed = Vec::new(alloc);
    for (variable, assign) in pairs {
        typed.push((VarId::new(*variable), AssignId::new(*assign)))?;
    }
    Ok(typed)
}
