//! The lines of cuts in short, with the ways of their events in firing order.

ghost use Rattle.std.specs.Prelude.{◌≡◌, ◌<◌, ◌++◌, ℕ, List, IfOk, OnOk, map, length};
ghost use Rattle.ar_base.specs.Lists.{Along, IsOneOf};
ghost use Rattle.gate_modules.specs.ShortenedInside.{event_numbers};
ghost use Rattle.mode_trees.specs.declared.forests.Edge.{Edge};
ghost use Rattle.module_text.specs.Arranged.{line_pieces, part_pieces, form_pieces, IsGroupOf};
ghost use Rattle.module_text.specs.Arranged.{pieces_of, unit_pieces};
ghost use Rattle.module_text.specs.Places.{ArePlacesOf, IsOfEdges, pieces_at};

use crate::places::{EdgePlaces, spots_of};
use ar_base::{EventId, Memory, UnitId, WayId};
use gate_modules::{EventSet, Module, ShortSet};
use std::alloc::Global;

/// What stands in a line between its braces.
#[derive(Clone, Copy)]
pub(crate) enum Piece {
    /// A unit.
    Unit(UnitId),
    /// The way of an event.
    Way(WayId),
}

/// A line in braces.
#[derive(Drop)]
pub(crate) struct Line {
    pub(crate) pieces: Vec<Piece>,
}

/// A unit with the lines of its sets.
#[derive(Drop)]
pub(crate) struct Group {
    pub(crate) unit: UnitId,
    pub(crate) lines: Vec<Line>,
}

/// The lines of modules.
pub(crate) fn groups_of(
    alloc: Global,
    table: &EdgePlaces,
    modules: &[Module],
) -> Result<Vec<Group>, Memory>
    requires { IsOfEdges table.now }
    ensures { (edges : List Edge) → ArePlacesOf edges table.now
        → IfOk result (λ groups. Along (IsGroupOf edges) modules.now groups.items) }
{
    let mut groups = Vec::new(alloc);
    for module in modules {
        let lines = lines_of_sets(alloc, table, &module.sets)?;
        groups.push(Group {
            unit: module.unit,
            lines,
        })?;
    }
    Ok(groups)
}

// The lines of sets.
fn lines_of_sets(alloc: Global, table: &EdgePlaces, sets: &[EventSet]) -> Result<Vec<Line>, Memory>
    requires { IsOfEdges table.now }
    ensures { (edges : List Edge) → ArePlacesOf edges table.now → IfOk result
        (λ lines. map pieces_of lines.items ≡ map (part_pieces edges) sets.now) }
{
    let mut lines = Vec::new(alloc);
    for set in sets {
        let line = line_of(alloc, table, &[], &set.events)?;
        lines.push(line)?;
    }
    Ok(lines)
}

/// The lines of short forms.
pub(crate) fn lines_of_forms(
    alloc: Global,
    table: &EdgePlaces,
    forms: &[ShortSet],
) -> Result<Vec<Line>, Memory>
    requires { IsOfEdges table.now }
    ensures { (edges : List Edge) → ArePlacesOf edges table.now → IfOk result
        (λ lines. map pieces_of lines.items ≡ map (form_pieces edges) forms.now) }
{
    let mut lines = Vec::new(alloc);
    for form in forms {
        let line = line_of(alloc, table, &form.units, &form.events)?;
        lines.push(line)?;
    }
    Ok(lines)
}

// The line of these units, and then of these events in firing order.
fn line_of(
    alloc: Global,
    table: &EdgePlaces,
    units: &[UnitId],
    events: &[EventId],
) -> Result<Line, Memory>
    requires { IsOfEdges table.now }
    ensures { (edges : List Edge) → ArePlacesOf edges table.now → IfOk result
        (λ line. line.pieces.items ≡ line_pieces edges units.now (event_numbers events.now)) }
{
    let spots = spots_of(alloc, &table.places, events)?;
    let mut pieces = Vec::new(alloc);
    add_units(&mut pieces, units)?;
    add_ways(&mut pieces, &table.ways, &spots)?;
    Ok(Line { pieces })
}

// Adds these units.
fn add_units(pieces: &mut Vec<Piece>, units: &[UnitId]) -> Result<(), Memory>
    ensures { OnOk result (pieces.new.items ≡ pieces.old.items ++ unit_pieces units.now) }
{
    for unit in units {
        pieces.push(Piece::Unit(*unit))?;
    }
    Ok(())
}

// Adds the ways at these places.
fn add_ways(pieces: &mut Vec<Piece>, ways: &[WayId], spots: &[usize]) -> Result<(), Memory>
    requires { (p : ℕ) → IsOneOf spots.now p → p < length ways.now }
    ensures { OnOk result (pieces.new.items
        ≡ pieces.old.items ++ pieces_at ways.now spots.now) }
{
    for spot in spots {
        pieces.push(Piece::Way(ways[*spot]))?;
    }
    Ok(())
}
