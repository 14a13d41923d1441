//! The order in which classes are given.

ghost use Rattle.std.specs.Prelude.{◌≡◌, ◌≢◌, ℕ, ◌+◌, ◌<◌, ◌≤◌, ◌⊎◌, ◌↔◌, true, false, List, [], ◌∷◌, IfOk, OnOk, IfSome, IfNone, length, slice_set, ◌^◌};
ghost use Rattle.std.specs.Prelude.{Vec};
ghost use Rattle.std.specs.Global.{Global};
ghost use Rattle.ar_base.specs.Lists.{Stands, IsOneOf};
ghost use Rattle.flow_blocks.specs.Blocks.{Follow};
ghost use Rattle.flow_blocks.specs.BlocksInside.{AreUsesBelow};
ghost use Rattle.flow_blocks.specs.Bits.{row_of, AreAllDependences};
ghost use Rattle.flow_blocks.specs.Table.{members_of, IsClassTable};
ghost use Rattle.flow_blocks.specs.Waits.{Crosses, IsClassReady, WasGiven, IsWaiting, AreWaiting, IsClassTaken, left_to_give};

use crate::classing::ClassTable;
use crate::dependences::Block;
use crate::lists::empty_lists;
use ar_base::{Memory, numbers_below};
use std::alloc::Global;
use std::collections::BTreeSet;
use std::mem;

/// What is left to give: for each class the classes that its members use and that were not found
/// given yet, and the classes that wait for it; whether each was given; and the classes that may be
/// given.
#[derive(Drop)]
struct Waiting {
    targets: Vec<Vec<u32>>,
    watchers: Vec<Vec<u32>>,
    given: Vec<bool>,
    ready: BTreeSet<u32>,
}

/// The classes in the order in which they may be given.
pub(crate) fn in_order(
    alloc: Global,
    count: u32,
    uses: &[(u32, u32)],
    table: &ClassTable,
) -> Result<Vec<Block>, Memory>
    requires table { IsClassTable count uses.now (members_of table.now.blocks.items)
        table.now.class_of.items }
    requires below { AreUsesBelow count uses.now }
    requires reaches { (rows : List (Vec ℕ Global)) × AreAllDependences count uses.now rows }
    ensures { IfOk result (λ found. Follow count uses.now [] (members_of found.items)) }
{
    let mut waiting = Waiting::new(alloc, uses, table)?;
    let all = numbers_below(alloc, table.blocks.len())?;
    waiting.examine_all(&all)?;
    let mut ordered = Vec::new(alloc);
    while let Some(class) = take_least(&mut waiting.ready) {
        let members = Vec::from_slice(alloc, &table.blocks[class as usize].members)?;
        ordered.push(Block { members })?;
        waiting.give(alloc, class)?;
    }
    Ok(ordered)
}

/// The least class that may be given.
fn take_least(ready: &mut BTreeSet<u32>) -> Option<u32>
    ensures some { IfSome result (λ c. IsClassReady ready.old c) }
    ensures least { IfSome result (λ c. (e : ℕ) → IsClassReady ready.old e → c ≤ e) }
    ensures rest { IfSome result (λ c. (e : ℕ) → IsClassReady ready.new e
        ↔ (IsClassReady ready.old e × (e ≢ c))) }
    ensures none { IfNone result ((e : ℕ) → IsClassReady ready.old e → ⊥) }
{
    ready.pop_first()
}

/// Adds a class to those that may be given.
fn add_ready(ready: &mut BTreeSet<u32>, class: u32) -> Result<(), Memory>
    ensures { OnOk result ((e : ℕ) → IsClassReady ready.new e ↔ (IsClassReady ready.old e ⊎ (e ≡ class))) }
{
    ready.insert(class)?;
    Ok(())
}

/// The last of the classes used that is another one and was not given. Those behind it are dropped.
fn next_target(targets: &mut Vec<u32>, class: u32, given: &[bool]) -> Option<u32>
    requires { (d : ℕ) → IsOneOf targets.old.items d → d < length given.now }
    ensures some { IfSome result (λ t. IsOneOf targets.old.items t × (t ≢ class)
        × (WasGiven given.now t → ⊥)) }
    ensures none { IfNone result ((d : ℕ) → IsOneOf targets.old.items d
        → (d ≡ class) ⊎ WasGiven given.now d) }
    ensures fewer { (d : ℕ) → IsOneOf targets.new.items d → IsOneOf targets.old.items d }
    ensures kept { (d : ℕ) → IsOneOf targets.old.items d
        → (d ≡ class) ⊎ (WasGiven given.now d ⊎ IsOneOf targets.new.items d) }
{
    while let Some(target) = targets.last().copied() {
        if target != class && !given[target as usize] {
            return Some(target);
        }
        let _ = targets.pop();
    }
    None
}

/// For each class the classes that its members use.
fn class_targets(
    alloc: Global,
    count: usize,
    uses: &[(u32, u32)],
    class_of: &[u32],
) -> Result<Vec<Vec<u32>>, Memory>
    requires below { (a b : ℕ) → IsOneOf uses.now (a, b)
        → (a < length class_of.now) × (b < length class_of.now) }
    requires classes { (n c : ℕ) → Stands class_of.now n c → c < count }
    ensures long { IfOk result (λ lists. length lists.items ≡ count) }
    ensures targets { IfOk result (λ lists. (e d : ℕ) → IsOneOf (row_of lists.items e) d
        ↔ Crosses uses.now class_of.now e d) }
{
    let mut lists = empty_lists(alloc, count)?;
    for (from, to) in uses {
        lists[class_of[*from as usize] as usize].push(class_of[*to as usize])?;
    }
    Ok(lists)
}

impl Waiting {
    fn new(alloc: Global, uses: &[(u32, u32)], table: &ClassTable) -> Result<Waiting, Memory>
        requires below { (a b : ℕ) → IsOneOf uses.now (a, b)
            → (a < length table.now.class_of.items) × (b < length table.now.class_of.items) }
        requires classes { (n c : ℕ) → Stands table.now.class_of.items n c
            → c < length table.now.blocks.items }
        ensures waits { IfOk result (λ w. (pending : List ℕ)
            → ((e : ℕ) → e < length table.now.blocks.items → IsOneOf pending e)
            → ((e : ℕ) → IsOneOf pending e → e < length table.now.blocks.items)
            → IsWaiting (length table.now.blocks.items) uses.now table.now.class_of.items w
            pending) }
        ensures given { IfOk result (λ w. (e : ℕ) → WasGiven w.given.items e → ⊥) }
    {
        let count = table.blocks.len();
        Ok(Waiting {
            targets: class_targets(alloc, count, uses, &table.class_of)?,
            watchers: empty_lists(alloc, count)?,
            given: vec![in alloc; false; count]?,
            ready: BTreeSet::new(alloc),
        })
    }

    /// Has a class wait for a class that it uses and that was not given, or be ready.
    fn examine(&mut self, class: u32) -> Result<(), Memory>
        requires { (pending : List ℕ) × AreWaiting self.old (class ∷ pending) }
        ensures waits { (count : ℕ) (uses : List (ℕ × ℕ)) (class_of pending : List ℕ)
            → IsWaiting count uses class_of self.old (class ∷ pending)
            → IfOk result (λ _. IsWaiting count uses class_of self.new pending) }
        ensures given { self.new.given.items ≡ self.old.given.items }
    {
        match next_target(&mut self.targets[class as usize], class, &self.given) {
            Some(target) => {
                self.watchers[target as usize].push(class)?;
                Ok(())
            }
            None => {
                add_ready(&mut self.ready, class)?;
                Ok(())
            }
        }
    }

    /// Looks at each of these classes.
    fn examine_all(&mut self, classes: &[u32]) -> Result<(), Memory>
        requires { AreWaiting self.old classes.now }
        ensures waits { (count : ℕ) (uses : List (ℕ × ℕ)) (class_of : List ℕ)
            → IsWaiting count uses class_of self.old classes.now
            → IfOk result (λ _. IsWaiting count uses class_of self.new []) }
        ensures given { self.new.given.items ≡ self.old.given.items }
    {
        for class in classes {
            self.examine(*class)?;
        }
        Ok(())
    }

    /// Gives a class, and looks again at those that wait for it.
    fn give(&mut self, alloc: Global, class: u32) -> Result<(), Memory>
        requires { (w : AreWaiting self.old (class ∷ [])) × IsClassTaken w.uses w.class_of self.old class }
        ensures waits { (count : ℕ) (uses : List (ℕ × ℕ)) (class_of : List ℕ)
            → IsWaiting count uses class_of self.old (class ∷ [])
            → IsClassTaken uses class_of self.old class
            → IfOk result (λ _. IsWaiting count uses class_of self.new []) }
        ensures given { self.new.given.items ≡ slice_set self.old.given.items class true }
    {
        self.given[class as usize] = true;
        let watchers = mem::replace(&mut self.watchers[class as usize], Vec::new(alloc));
        self.examine_all(&watchers)?;
        Ok(())
    }
}
