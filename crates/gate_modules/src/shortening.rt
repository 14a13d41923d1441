//! A family in short.

ghost use Rattle.std.specs.Prelude.{◌≡◌, ◌+◌, IfOk, OnOk, length, map, true, false, []};
ghost use Rattle.zdd_nodes.specs.Nodes.{family as family_of, IsFamilyNumber, IsSoundStore};
ghost use Rattle.gate_modules.specs.Choices.{StandFor};
ghost use Rattle.gate_modules.specs.Choosing.{IsRangeCovered, IsWithinNone, AreChosenSoFar};
ghost use Rattle.gate_modules.specs.Modules.{Covers};
ghost use Rattle.gate_modules.specs.ModulesInside.{AreRanges};
ghost use Rattle.gate_modules.specs.ShortenedInside.{Shortens, short_form_of, module_of};
ghost use Rattle.gate_modules.specs.Walked.{AreTwins};

use crate::forms::add_forms;
use crate::modules::module_sets;
use crate::ranges::{Module, Range, Short};
use crate::twins::Twin;
use ar_base::Memory;
use gate_diagrams::Family;
use std::alloc::Global;
use zdd_nodes::{NodeId, Store};

/// The family in short: of the units of these ranges those that are chosen, by number, each with its parts, and the short
/// forms of the family's sets, each once, in the order of the first set that has it. The short forms stand for the family:
/// of each choice of one set of the module for each unit of a form, with the form's events, a set of the family is made, and
/// each of its sets comes from just one form and one choice. It makes no node of a diagram.
pub fn shorten(alloc: Global, family: &Family, ranges: &[Range]) -> Result<Short, Memory>
    requires root { IsFamilyNumber family.now.store family.now.root.n }
    requires ranges { AreRanges ranges.now }
    ensures short { IfOk result (λ s.
        Shortens (family_of family.now.store family.now.root.n) ranges.now s) }
    ensures stands { IfOk result (λ s. StandFor (family_of family.now.store family.now.root.n)
        (map module_of s.modules.items) (map short_form_of s.sets.items)) }
{
    let mut chosen = Vec::new(alloc);
    let mut modules = Vec::new(alloc);
    let mut sets = Vec::new(alloc);
    let store = &family.store;
    let room = store.len() as usize + 2;
    // An entry with the number 0 tells nothing.
    let none = NodeId::new(0);
    let no_twin = Twin {
        to: 0,
        node: none,
        end: none,
        node_end: none,
    };
    let mut twins = vec![in alloc; no_twin; room]?;
    choose(
        alloc,
        store,
        family.root,
        ranges,
        &mut twins,
        &mut chosen,
        &mut modules,
    )?;
    add_forms(alloc, store, &chosen, family.root, &[], &mut sets)?;
    Ok(Short { modules, sets })
}

// The chosen units of these ranges, and these as modules: each that is a module and lies within none chosen before.
fn choose(
    alloc: Global,
    store: &Store,
    root: NodeId,
    ranges: &[Range],
    twins: &mut [Twin],
    chosen: &mut Vec<Range>,
    modules: &mut Vec<Module>,
) -> Result<(), Memory>
    requires sound { IsSoundStore store.now }
    requires root { IsFamilyNumber store.now root.n }
    requires ranges { AreRanges ranges.now }
    requires room { length twins.old ≡ length store.now.families + 2 }
    requires known { AreTwins store.now twins.old }
    requires no_range { chosen.old.items ≡ [] }
    requires no_module { modules.old.items ≡ [] }
    ensures { OnOk result (AreChosenSoFar (family_of store.now root.n) ranges.now ranges.now
        chosen.new.items (map module_of modules.new.items)) }
{
    for range in ranges {
        if is_within(chosen, *range) {
            continue;
        }
        let Some(sets) = module_sets(alloc, store, root, *range, twins)? else {
            continue;
        };
        chosen.push(*range)?;
        modules.push(Module {
            unit: range.unit,
            sets,
        })?;
    }
    Ok(())
}

// Whether the range lies within one of these.
fn is_within(chosen: &[Range], range: Range) -> bool
    ensures yes { result ≡ true → IsRangeCovered chosen.now range }
    ensures no { result ≡ false → IsWithinNone chosen.now range }
{
    for outer in chosen {
        if covers(*outer, range) {
            return true;
        }
    }
    false
}

// Whether the events of the second range are among those of the first.
fn covers(outer: Range, inner: Range) -> bool
    ensures yes { result ≡ true → Covers outer inner }
    ensures no { result ≡ false → Covers outer inner → ⊥ }
{
    if outer.from > inner.from {
        return false;
    }
    if inner.to > outer.to {
        return false;
    }
    true
}
