//! What each name leads to in each unit of the tree.

ghost use Rattle.std.specs.Prelude.{◌≡◌, ◌+◌, ◌≤◌, ℕ, List, [], length, IfOk, OnOk};
ghost use Rattle.ar_base.specs.Lists.{Stands, IsOneOf};
ghost use Rattle.hierarchy.specs.Models.{RootedModel};
ghost use Rattle.hierarchy.specs.Units.{UnitPath, body_of};
ghost use Rattle.hierarchy.specs.Listing.{AreUnits};
ghost use Rattle.unit_walks.specs.Forms.{AreOnce, IsFormsFor};
ghost use Rattle.unit_walks.specs.Tables.{table_paths, IsWalkTable, EntryMeans};
ghost use Rattle.unit_walks.specs.Growing.{IsUnfolded, Tied};
ghost use Rattle.unit_walks.specs.Settling.{IsLed, AreNumberedChildren, IsUnitNumber, AreOutcomes, IsSettledTo, SettlesUnit};

use crate::forms::Forms;
use crate::growing::{Node, Unfolded};
use crate::tables::{Known, Table};
use crate::walking::known;
use ar_base::{Memory, NameId, UnitId};
use std::alloc::Global;
use std::collections::HashMap;

/// What a name leads to in a unit.
#[derive(Clone, Copy)]
pub enum Led {
    /// A unit, by its number among the units depth first.
    Unit(UnitId),
    /// Nothing: it is no block, instance, clone or alias there, or its path names nothing.
    Nothing,
    /// A walk that comes back to itself, or a clone of a unit that has the body of the clone's own
    /// unit or of one above it.
    Loops,
}

/// What each name leads to in each unit of a main block.
#[derive(Drop)]
pub struct Walks {
    pub(crate) led: HashMap<(u32, u32), Led>,
}

/// The numbers of units depth first, by the number of the unit above and by their name.
type Children = HashMap<(u32, u32), UnitId>;

impl Walks {
    /// What the name leads to in the unit. Takes no memory.
    pub fn outcome(&self, unit: UnitId, name: NameId) -> Led
        ensures { (m : RootedModel) (units : List UnitPath) (u : UnitPath)
            → AreOutcomes m units self.now → Stands units unit.n u → IsLed m units u name.n result }
    {
        match self.led.get(&(unit.n, name.n)) {
            None => Led::Nothing,
            Some(led) => *led,
        }
    }
}

/// Walks every clone and alias of every unit, and tells what each name leads to. Takes memory linear
/// in the names of the units. The outlines stay as they are.
pub fn settle(alloc: Global, unfolded: &mut Unfolded) -> Result<Walks, Memory>
    requires { length unfolded.old.nodes.items ≤ 16384 }
    ensures walks { (m : RootedModel) (units : List UnitPath) → IsUnfolded m units unfolded.old
        → IfOk result (AreOutcomes m units) }
    ensures outlines { unfolded.new.outlines ≡ unfolded.old.outlines }
{
    settle_all(alloc, &unfolded.forms, &mut unfolded.table, &unfolded.nodes)
}

// The numbers of these units by the numbers of those above them and by their names.
fn children_of(alloc: Global, nodes: &[Node]) -> Result<Children, Memory>
    requires { length nodes.now ≤ 16384 }
    ensures { (m : RootedModel) (units paths : List UnitPath) → AreOnce m → AreUnits m units
        → Tied m units paths units nodes.now → IfOk result (AreNumberedChildren units) }
{
    let mut children = HashMap::new(alloc);
    for (place, node) in nodes.iter().enumerate() {
        let outline = node.outline;
        if let Some(owner) = outline.owner {
            children.insert((owner.n, outline.name.n), UnitId::new(place as u32))?;
        }
    }
    Ok(children)
}

// The number depth first of a unit of the table, which is found from that of the unit above.
fn id_of(table: &Table, children: &Children, number: u32) -> Option<UnitId>
    ensures { (m : RootedModel) (units : List UnitPath) (v : UnitPath) → AreOnce m
        → AreUnits m units → IsWalkTable m [] table.now → AreNumberedChildren units children.now
        → Stands (table_paths table.now) number v → IsOneOf units v → IsUnitNumber units v result }
{
    let met = table.unit(number)?;
    let Some(owner) = met.owner else {
        return Some(UnitId::new(0));
    };
    if owner >= number {
        return None;
    }
    let above = id_of(table, children, owner)?;
    children.get(&(above.n, met.name.n)).copied()
}

// What is known of a name, by the numbers of units depth first.
fn led_by(table: &Table, children: &Children, known: Known) -> Led
    ensures { (m : RootedModel) (units : List UnitPath) (a x : ℕ) (u : UnitPath) → AreOnce m
        → AreUnits m units → IsWalkTable m [] table.now → AreNumberedChildren units children.now
        → IsOneOf units u → EntryMeans m (table_paths table.now) [] a u x known → IsLed m units u x result }
{
    match known {
        Known::ToUnit(number) => match id_of(table, children, number) {
            None => Led::Nothing,
            Some(id) => Led::Unit(id),
        },
        Known::Nothing => Led::Nothing,
        Known::Loops => Led::Loops,
        Known::Following => Led::Loops,
    }
}

// Keeps what each name of a unit leads to.
fn settle_unit(
    alloc: Global,
    forms: &Forms,
    table: &mut Table,
    children: &Children,
    walks: &mut Walks,
    at: UnitId,
    node: Node,
) -> Result<(), Memory>
    ensures { (m : RootedModel) (units : List UnitPath) (u : UnitPath) → IsFormsFor m forms.now
        → AreUnits m units → IsWalkTable m [] table.old → Stands (table_paths table.old) node.unit u
        → node.outline.body.n ≡ body_of m u → Stands units at.n u
        → AreNumberedChildren units children.now → IsSettledTo m units at.n 0 walks.old
        → OnOk result (SettlesUnit m units (at.n + 1) table.old table.new walks.new) }
{
    let Some(names) = forms.list(node.outline.body) else {
        return Ok(());
    };
    for named in names {
        let known = known(alloc, forms, table, node.unit, named.name)?;
        let led = led_by(table, children, known);
        walks.led.insert((at.n, named.name.n), led)?;
    }
    Ok(())
}

// What each name of these units leads to.
fn settle_all(
    alloc: Global,
    forms: &Forms,
    table: &mut Table,
    nodes: &[Node],
) -> Result<Walks, Memory>
    requires { length nodes.now ≤ 16384 }
    ensures { (m : RootedModel) (units : List UnitPath) → IsFormsFor m forms.now
        → AreUnits m units → IsWalkTable m [] table.old → Tied m units (table_paths table.old) units nodes.now
        → IfOk result (AreOutcomes m units) }
{
    let children = children_of(alloc, nodes)?;
    let mut walks = Walks {
        led: HashMap::new(alloc),
    };
    for (place, node) in nodes.iter().enumerate() {
        let at = UnitId::new(place as u32);
        settle_unit(alloc, forms, table, &children, &mut walks, at, *node)?;
    }
    Ok(walks)
}
