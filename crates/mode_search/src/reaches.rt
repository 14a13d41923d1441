//! What each variable reaches.

ghost use Rattle.std.specs.Prelude.{◌<◌, ◌^◌, length, IfOk};
ghost use Rattle.gts_core.specs.Sound.{IsSound};
ghost use Rattle.mode_search.specs.Events.{IsLeastNumber};
ghost use Rattle.mode_search.specs.Reaches.{AreKeptWaysOf, AreReaches, IsWrongAt, IsAgainAt};

use crate::rows::rows;
use crate::{KeptWay, Reach, reached};
use ar_base::{Memory, VarId};
use gts_core::GtsParts;
use std::alloc::Global;

/// What each variable reaches from its initial value along the edges of the visible ones of these ways of which it is the
/// mode variable. The error is want of memory.
pub fn all_reached(alloc: Global, parts: &GtsParts, kept: &[KeptWay]) -> Result<Vec<Reach>, Memory>
    requires sound { IsSound parts.now }
    requires kept { AreKeptWaysOf parts.now kept.now }
    ensures { IfOk result (λ reaches. AreReaches parts.now kept.now
        (length parts.now.variables.items) reaches.items) }
{
    let rows = rows(alloc, parts.variables.len(), kept)?;
    let mut reaches = Vec::new(alloc);
    for (n, row) in rows.iter().enumerate() {
        let reach = reached(alloc, parts, VarId::new(n as u32), row)?;
        reaches.push(reach)?;
    }
    Ok(reaches)
}

/// The least variable that has a way which is wrong at a mode that it reaches. Takes no memory.
pub fn least_wrong(reaches: &[Reach]) -> Option<u32>
    requires { length reaches.now < 2 ^ 32 }
    ensures { IsLeastNumber (IsWrongAt reaches.now) result }
{
    for (n, reach) in reaches.iter().enumerate() {
        if reach.wrong {
            return Some(n as u32);
        }
    }
    None
}

/// The least variable of which an edge enters the initial mode, or a mode that an earlier edge enters. Takes no memory.
pub fn least_again(reaches: &[Reach]) -> Option<u32>
    requires { length reaches.now < 2 ^ 32 }
    ensures { IsLeastNumber (IsAgainAt reaches.now) result }
{
    for (n, reach) in reaches.iter().enumerate() {
        if reach.again {
            return Some(n as u32);
        }
    }
    None
}
