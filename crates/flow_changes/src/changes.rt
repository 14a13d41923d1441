//! What changed between two valuations with marks.

ghost use Rattle.std.specs.Prelude.{◌≡◌, ℕ, Bool, List, length, IfOk};
ghost use Rattle.ar_base.specs.Sets.{Ascends};
ghost use Rattle.domains.specs.declared.Value.{Value};
ghost use Rattle.gts_core.specs.Readings.{IsTotal};
ghost use Rattle.gts_core.specs.Sound.{IsSound};
ghost use Rattle.flow_changes.specs.Picking.{ArePicked, AreWithin, KeepsOthers};
ghost use Rattle.flow_changes.specs.Restoring.{GivesBack, TellsChanges, TurnsBack};

use crate::codes::code_of;
use ar_base::{Memory, VarId};
use domains::Value;
use gts_core::GtsParts;
use std::alloc::Global;

/// What changed between two total valuations with marks, with what it takes to go back: eight bytes
/// for each variable whose value changed, and four for each whose mark turned.
#[derive(Drop)]
pub struct Changes {
    /// The variables whose values changed, ascending.
    pub variables: Vec<VarId>,
    /// The codes of their old values in their domains.
    pub old: Vec<u32>,
    /// The variables whose marks turned, ascending.
    pub turned: Vec<VarId>,
}

/// What changed at these variables; all others are as they were. `old` and `old_known` are what the
/// members had, in their order, and `values` and `known` what all variables have. The vectors have
/// no room to spare. The error is want of memory.
pub fn changes_at(
    alloc: Global,
    parts: &GtsParts,
    members: &[u32],
    old: &[Value],
    old_known: &[bool],
    values: &[Value],
    known: &[bool],
) -> Result<Changes, Memory>
    requires sound { IsSound parts.now }
    requires ascend { Ascends members.now }
    requires within { AreWithin members.now parts.now.variables.items }
    requires old_long { length old.now ≡ length members.now }
    requires old_known_long { length old_known.now ≡ length members.now }
    requires values_long { length values.now ≡ length parts.now.variables.items }
    requires known_long { length known.now ≡ length parts.now.variables.items }
    ensures { IfOk result (λ c. (before : List Value) (known_before : List Bool)
        → ArePicked members.now before old.now → ArePicked members.now known_before old_known.now
        → KeepsOthers members.now before values.now → KeepsOthers members.now known_before known.now
        → IsTotal parts.now before → IsTotal parts.now values.now
        → TellsChanges parts.now before known_before values.now known.now c) }
{
    let found = changed_values(alloc, parts, members, old, values)?;
    let turned = turned_marks(alloc, members, old_known, known)?;
    Ok(Changes {
        variables: Vec::from_slice(alloc, &found.variables)?,
        old: Vec::from_slice(alloc, &found.codes)?,
        turned: Vec::from_slice(alloc, &turned)?,
    })
}

// The variables whose values changed, ascending, and the codes of their old values.
#[derive(Drop)]
struct OldCodes {
    // The variables.
    variables: Vec<VarId>,
    // The codes.
    codes: Vec<u32>,
}

// Which of these variables have other values than they had, and the codes of those.
fn changed_values(
    alloc: Global,
    parts: &GtsParts,
    members: &[u32],
    old: &[Value],
    values: &[Value],
) -> Result<OldCodes, Memory>
    requires sound { IsSound parts.now }
    requires ascend { Ascends members.now }
    requires within { AreWithin members.now parts.now.variables.items }
    requires old_long { length old.now ≡ length members.now }
    requires values_long { length values.now ≡ length parts.now.variables.items }
    ensures { IfOk result (λ o. (before : List Value) → ArePicked members.now before old.now
        → KeepsOthers members.now before values.now → IsTotal parts.now before
        → GivesBack parts.now before values.now o.variables.items o.codes.items) }
{
    let mut variables = Vec::new(alloc);
    let mut codes = Vec::new(alloc);
    for (place, n) in members.iter().enumerate() {
        let x = *n as usize;
        if values[x] != old[place] {
            variables.push(VarId::new(*n))?;
            codes.push(code_of(&parts.variables[x].domain, old[place]))?;
        }
    }
    Ok(OldCodes { variables, codes })
}

// Which of these variables have other marks than they had, ascending.
fn turned_marks(
    alloc: Global,
    members: &[u32],
    old_known: &[bool],
    known: &[bool],
) -> Result<Vec<VarId>, Memory>
    requires ascend { Ascends members.now }
    requires within { AreWithin members.now known.now }
    requires long { length old_known.now ≡ length members.now }
    ensures { IfOk result (λ v. (before : List Bool) → ArePicked members.now before old_known.now
        → KeepsOthers members.now before known.now → TurnsBack before known.now v.items) }
{
    let mut variables = Vec::new(alloc);
    for (place, n) in members.iter().enumerate() {
        if old_known[place] != known[*n as usize] {
            variables.push(VarId::new(*n))?;
        }
    }
    Ok(variables)
}
