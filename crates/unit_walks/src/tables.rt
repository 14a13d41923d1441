//! What walks have found: the units that they came to, and what names lead to in them.

ghost use Rattle.std.specs.Prelude.{◌≡◌, ◌<◌, List, [], IfOk, OnOk, slice_get};
ghost use Rattle.hierarchy.specs.Models.{RootedModel};
ghost use Rattle.hierarchy.specs.Units.{UnitPath, bodies_of, has_number, start_of};
ghost use Rattle.ar_base.specs.Lists.{Stands};
ghost use Rattle.unit_walks.specs.declared.tables.Frame.{Frame as Walk};
ghost use Rattle.unit_walks.specs.Tables.{known_at, end_at, table_paths, StandsIf, IsWalkTable, IsEntrySet, IsForgotten, IsGrown};

use ar_base::{BodyId, Cap, Memory, NameId};
use ar_syntax::PathStart;
use std::alloc::Global;
use std::collections::HashMap;

/// How many names in units are known at a time, at most, and how many units are met but for the main block. A model
/// within the limits has fewer.
const MOST_KNOWN: u32 = 16_777_216;

/// A unit that a walk has come to.
#[derive(Clone, Copy)]
pub(crate) struct Met {
    /// The unit above, by its number in the table, which the main block has none of.
    pub owner: Option<u32>,
    /// Its name in the unit above.
    pub name: NameId,
    /// Its body.
    pub body: BodyId,
    /// The declaration whose settings hold in it.
    pub set_at: Option<(BodyId, u32)>,
}

/// What is known of a name in a unit.
#[derive(Clone, Copy)]
pub(crate) enum Known {
    /// Its path is being walked.
    Following,
    /// It leads to the unit of this number in the table.
    ToUnit(u32),
    /// It leads to nothing.
    Nothing,
    /// Its walk loops.
    Loops,
}

/// How far a long path leads: to its end, or to where its next name leads to no unit or to a walk that loops.
#[derive(Clone, Copy)]
pub(crate) struct Reach {
    /// The unit to which its first names lead, by its number in the table.
    pub unit: u32,
    /// How many names are to go from there.
    pub rest: usize,
}

/// The units that walks have come to, by number, and what is known of the names in them.
#[derive(Drop)]
pub(crate) struct Table {
    /// The units; the main block is the first.
    pub units: Vec<Met>,
    /// What is known, by unit and name.
    pub known: HashMap<(u32, u32), Known>,
    /// How many names in units are known.
    pub count: u32,
    /// How far long paths lead, by the body and the name of the statement and by the unit where the path begins. There is
    /// one at most for each statement in a unit that was walked.
    pub ends: HashMap<(u32, u32, u32), Reach>,
}

/// A clone or an alias whose path is being walked.
#[derive(Clone, Copy)]
pub(crate) struct Frame<'a> {
    /// The unit in which it stands.
    pub unit: u32,
    /// Its name.
    pub name: NameId,
    /// Whether it is a clone.
    pub is_clone: bool,
    /// The unit to which its path has led.
    pub at: u32,
    /// The names that are to go.
    pub rest: &'a [NameId],
    /// The unit where its path begins, if it is to be kept how far it leads.
    pub start: Option<u32>,
}

/// A table with the main block alone.
pub(crate) fn start_table(alloc: Global, main: BodyId) -> Result<Table, Memory>
    ensures { (m : RootedModel) → main.n ≡ m.main → IfOk result (IsWalkTable m []) }
{
    let mut units = Vec::new(alloc);
    units.push(Met {
        owner: None,
        name: NameId::new(0),
        body: main,
        set_at: None,
    })?;
    Ok(Table {
        units,
        known: HashMap::new(alloc),
        count: 0,
        ends: HashMap::new(alloc),
    })
}

impl Table {
    /// What is known of the name in the unit.
    pub(crate) fn at(&self, unit: u32, name: NameId) -> Option<Known>
        ensures { result ≡ known_at self.now unit name.n }
    {
        self.known.get(&(unit, name.n)).copied()
    }

    /// Sets what is known of a name that was looked at before.
    pub(crate) fn set(&mut self, unit: u32, name: NameId, known: Known) -> Result<(), Memory>
        ensures { OnOk result (IsEntrySet self.old self.new unit name.n known 0) }
    {
        self.known.insert((unit, name.n), known)?;
        Ok(())
    }

    /// Sets what is known of a name of which nothing is kept.
    pub(crate) fn add(&mut self, unit: u32, name: NameId, known: Known) -> Result<(), Memory>
        ensures set { OnOk result (IsEntrySet self.old self.new unit name.n known 1) }
        ensures room { OnOk result (self.old.count < 16777216) }
    {
        let count = self.count;
        if count >= MOST_KNOWN {
            return Err(Memory::from(Cap::WalkEntries));
        }
        self.set(unit, name, known)?;
        self.count = count + 1;
        Ok(())
    }

    /// Forgets what is known of a name.
    pub(crate) fn forget(&mut self, unit: u32, name: NameId)
        ensures { IsForgotten self.old self.new unit name.n }
    {
        if self.known.remove(&(unit, name.n)).is_some() {
            self.count = self.count.saturating_sub(1);
        }
    }

    /// How far a path leads from the unit `start`, where that is kept: that of the statement of this name in units of
    /// the body.
    pub(crate) fn end(&self, body: BodyId, name: NameId, start: u32) -> Option<Reach>
        ensures { result ≡ end_at self.now body.n name.n start }
    {
        self.ends.get(&(body.n, name.n, start)).copied()
    }

    /// Adds a unit, and gives its number.
    pub(crate) fn meet(&mut self, unit: Met) -> Result<u32, Memory>
        ensures { IfOk result (IsGrown self.old self.new unit) }
    {
        let place = self.units.len();
        if place > MOST_KNOWN as usize {
            return Err(Memory::from(Cap::WalkEntries));
        }
        self.units.push(unit)?;
        Ok(place as u32)
    }

    /// The unit of a number.
    pub(crate) fn unit(&self, number: u32) -> Option<Met>
        ensures { result ≡ slice_get self.now.units.items number }
    {
        self.units.get(number as usize).copied()
    }

    /// Whether the unit or one above it has the body. A unit stands behind the one above it, so that the way up ends.
    pub(crate) fn has_body(&self, unit: u32, body: BodyId) -> bool
        ensures { (m : RootedModel) (frames : List Walk) (u : UnitPath) → IsWalkTable m frames self.now
            → Stands (table_paths self.now) unit u → result ≡ has_number (bodies_of m u) body.n }
    {
        let mut at = unit;
        for _level in 0..self.units.len() {
            let Some(met) = self.unit(at) else {
                return false;
            };
            if met.body.n == body.n {
                return true;
            }
            let Some(above) = met.owner else {
                return false;
            };
            at = above;
        }
        false
    }

    /// Where a path begins that is read in the unit.
    pub(crate) fn start(&self, start: PathStart, unit: u32) -> Option<u32>
        ensures { (m : RootedModel) (frames : List Walk) (u : UnitPath) → IsWalkTable m frames self.now
            → Stands (table_paths self.now) unit u
            → StandsIf (table_paths self.now) result (start_of start u) }
    {
        match start {
            PathStart::Here => Some(unit),
            PathStart::Main => Some(0),
            PathStart::Owner => match self.unit(unit) {
                None => None,
                Some(met) => met.owner,
            },
        }
    }
}
