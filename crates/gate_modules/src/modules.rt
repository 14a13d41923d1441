//! Whether a unit is a module.

ghost use Rattle.std.specs.Prelude.{◌≡◌, ◌+◌, IfOk, MatchOption, length, map};
ghost use Rattle.zdd_nodes.specs.Nodes.{family, IsFamilyNumber, IsSoundStore};
ghost use Rattle.gate_modules.specs.Deciding.{IsModuleWith};
ghost use Rattle.gate_modules.specs.Modules.{IsModule};
ghost use Rattle.gate_modules.specs.ShortenedInside.{set_of};
ghost use Rattle.gate_modules.specs.Walked.{AreTwins};

use crate::entries::{Reference, entries_agree, entries_of, entry_exit};
use crate::parts::add_some_parts;
use crate::ranges::{EventSet, Range};
use crate::twins::Twin;
use ar_base::Memory;
use std::alloc::Global;
use zdd_nodes::{NodeId, Store, first_with_event};

/// The parts of the unit in the order of listing; None exactly where it is no module. A unit without
/// events takes no time.
pub(crate) fn module_sets(
    alloc: Global,
    store: &Store,
    root: NodeId,
    range: Range,
    twins: &mut [Twin],
) -> Result<Option<Vec<EventSet>>, Memory>
    requires sound { IsSoundStore store.now }
    requires root { IsFamilyNumber store.now root.n }
    requires room { length twins.old ≡ length store.now.families + 2 }
    requires known { AreTwins store.now twins.old }
    ensures sets { IfOk result (λ o. MatchOption o (IsModule (family store.now root.n) range → ⊥)
        (λ sets. IsModuleWith (family store.now root.n) range (map set_of sets.items))) }
    ensures known { AreTwins store.now twins.new }
    ensures long { length twins.new ≡ length twins.old }
{
    if range.to <= range.from {
        return Ok(None);
    }
    let entries = entries_of(alloc, store, root, range.from)?;
    let Some(node) = first_with_event(store, range.to, &entries) else {
        return Ok(None);
    };
    let reference = Reference {
        node,
        end: entry_exit(store, range.to, node),
    };
    if !entries_agree(store, twins, range.to, reference, &entries) {
        return Ok(None);
    }
    let mut sets = Vec::new(alloc);
    add_some_parts(alloc, store, range.to, node, &mut sets)?;
    if sets.len() < 2 {
        return Ok(None);
    }
    Ok(Some(sets))
}
