//! Terms by their values.

ghost use Rattle.std.specs.Prelude.{◌≡◌, ◌≤◌, ◌<◌, OnOk, length, [], map, slice_index_or, true, false};
ghost use Rattle.std.specs.List.{AllWithin};
ghost use Rattle.domains.specs.Values.{is_before};
ghost use Rattle.eq_build.specs.Entries.{with_term, entries_of};
ghost use Rattle.eq_build.specs.EntriesInside.{Rises};
ghost use Rattle.eq_build.specs.BuildsInside.{most_gates};
ghost use Rattle.eq_build.specs.declared.groups.Group.{Group as GroupOfTerms};
ghost use Rattle.eq_build.specs.Views.{operands_in, gates_in, group_of, MakesEntries};

use crate::entries::{BuildFault, Entry, one_of_alls};
use crate::steps::before;
use ar_base::Memory;
use domains::Value;
use eq_core::{Gate, Operand};
use std::alloc::Global;
use std::marker::Model;

// The terms of one value, each with its operands.
#[derive(Drop)]
struct Group {
    value: Value,
    terms: Vec<Vec<Operand>>,
}

/// Terms, each a value with operands that are all needed for it, in groups by their values, ascending.
#[derive(Drop)]
pub struct Groups {
    groups: Vec<Group>,
}

impl Model for Groups {
    ghost use Rattle.std.specs.Prelude.{List, map};
    ghost use Rattle.eq_build.specs.Entries.{Group};
    ghost use Rattle.eq_build.specs.EntriesInside.{Rises};
    ghost use Rattle.eq_build.specs.Views.{group_of};

    ghost Value = { List Group };

    ghost view = { λ s. map group_of s.groups.items };

    ghost invariant = { λ s. Rises (map group_of s.groups.items) };
}

impl Groups {
    /// No terms. Takes no memory.
    pub fn new(alloc: Global) -> Groups
        ensures { result ≡ [] }
    {
        Groups {
            groups: Vec::new(alloc),
        }
    }

    /// One more term: the value is taken where all of these operands are true. The error is want of memory.
    pub fn put(&mut self, alloc: Global, value: Value, operands: &[Operand]) -> Result<(), Memory>
        ensures { OnOk result (self.new
            ≡ with_term (record { value = value; operands = operands_in operands.now }) self.old) }
    {
        put_in(alloc, &mut self.groups, value, operands)
    }

    /// An entry for each value of the terms, ascending: one of its terms, all of the term's operands. Gates comes only
    /// where that makes more gates than a table may have.
    pub fn entries(&self, alloc: Global, gates: &mut Vec<Gate>) -> Result<Vec<Entry>, BuildFault>
        requires { length gates.old.items ≤ most_gates }
        ensures { MakesEntries (entries_of (gates_in gates.old.items) self.now) result
            gates.new.items }
    {
        entries_in_order(alloc, gates, &self.groups)
    }
}

// The groups with one more term.
fn put_in(
    alloc: Global,
    groups: &mut Vec<Group>,
    value: Value,
    operands: &[Operand],
) -> Result<(), Memory>
    requires { Rises (map group_of groups.old.items) }
    ensures put { OnOk result (map group_of groups.new.items ≡ with_term
        (record { value = value; operands = operands_in operands.now })
        (map group_of groups.old.items)) }
    ensures rises { Rises (map group_of groups.new.items) }
{
    let place = place_of(groups, value);
    let term = Vec::from_slice(alloc, operands)?;
    if place < groups.len() && !before(value, groups[place].value) {
        let group = &mut groups[place];
        group.terms.push(term)?;
        return Ok(());
    }
    let mut terms = Vec::new(alloc);
    terms.push(term)?;
    groups.insert(place, Group { value, terms })?;
    Ok(())
}

// An entry for each group, in order.
fn entries_in_order(
    alloc: Global,
    gates: &mut Vec<Gate>,
    groups: &[Group],
) -> Result<Vec<Entry>, BuildFault>
    requires { length gates.old.items ≤ most_gates }
    ensures { MakesEntries (entries_of (gates_in gates.old.items) (map group_of groups.now)) result
        gates.new.items }
{
    let mut entries = Vec::new(alloc);
    for group in groups {
        let operand = one_of_alls(alloc, gates, &group.terms)?;
        if operand != Operand::Never {
            entries.push(Entry {
                value: group.value,
                operand,
            })?;
        }
    }
    Ok(entries)
}

// The first place at which a group's value does not come before this one, by halving.
fn place_of(groups: &[Group], value: Value) -> usize
    requires { Rises (map group_of groups.now) }
    ensures bound { result ≤ length groups.now }
    ensures lower { AllWithin (λ p. is_before p.value value ≡ true) groups.now 0 result }
    ensures upper { result < length groups.now → (d : GroupOfTerms)
        → is_before (slice_index_or groups.now result d).value value ≡ false }
{
    let mut low = 0;
    let mut high = groups.len();
    while low < high {
        let middle = low + (high - low) / 2;
        if before(groups[middle].value, value) {
            low = middle + 1;
        } else {
            high = middle;
        }
    }
    low
}
