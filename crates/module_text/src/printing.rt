//! The lines of cuts in short.

ghost use Rattle.std.specs.Prelude.{true, false, codes, map};
ghost use Rattle.ar_base.specs.Texts.{separated, text_at};
ghost use Rattle.ar_io.specs.Handing.{Writes};
ghost use Rattle.cut_text.specs.Answers.{Prints};
ghost use Rattle.mode_trees.specs.Ways.{OwnTheirWays};
ghost use Rattle.module_text.specs.Arranged.{piece_text, line_text, part_lines as texts_of_parts};
ghost use Rattle.module_text.specs.Arranged.{groups_lines, form_lines as texts_of_forms, IsInside, ArePiecesOf};
ghost use Rattle.module_text.specs.Arranged.{LinesInside, GroupsInside};
ghost use Rattle.module_text.specs.Printed.{short_lines};
ghost use Rattle.module_text.specs.Texts.{module_line, unit_mark, lines_line};

use crate::arranging::{Group, Line, Piece, groups_of, lines_of_forms};
use crate::places::edge_places;
use ar_base::UnitId;
use ar_io::{Sink, SinkFailed, text_at, write_count, write_text};
use cut_text::PrintFault;
use gate_modules::Short;
use gts_core::{Gts, GtsParts};
use mode_trees::Forest;
use std::alloc::Global;
use text_pieces::print_label;

/// Writes the text of cuts in short: for each module `module PATH` and then each of its sets on a line of two spaces and
/// `{a, b}`, with the labels of its events' edges in firing order; then the short forms, each `{[PATH], a}` with its units and
/// the labels of its other events in firing order; and last `lines N` with the number of short forms. Memory is taken before
/// anything is written.
pub fn print_modules<K: Sink>(
    alloc: Global,
    gts: &Gts,
    forest: &Forest,
    short: &Short,
    out: &mut K,
) -> Result<(), PrintFault>
    requires { OwnTheirWays gts.now forest.now.trees.items }
    ensures { Prints (K.state out.old) (K.state out.new) (short_lines gts.now forest.now short.now)
        result }
{
    let table = edge_places(alloc, forest)?;
    let groups = groups_of(alloc, &table, &short.modules)?;
    let lines = lines_of_forms(alloc, &table, &short.sets)?;
    all_groups(out, gts, &groups)?;
    forms(out, gts, &lines)?;
    last(out, lines.len())?;
    Ok(())
}

// The lines of modules.
fn all_groups<K: Sink>(out: &mut K, gts: &Gts, groups: &[Group]) -> Result<(), SinkFailed>
    requires { GroupsInside gts.now groups.now }
    ensures { Writes (K.state out.old) (K.state out.new) (groups_lines gts.now groups.now) result }
{
    for one in groups {
        head(out, gts.parts(), one.unit)?;
        parts(out, gts, &one.lines)?;
    }
    Ok(())
}

// The line of a module's unit.
fn head<K: Sink>(out: &mut K, parts: &GtsParts, unit: UnitId) -> Result<(), SinkFailed>
    ensures { Writes (K.state out.old) (K.state out.new)
        (module_line (text_at parts.now.units.items unit.n)) result }
{
    write_text(out, "module ")?;
    write_text(out, text_at(&parts.units, unit.n))?;
    write_text(out, "\n")
}

// The lines of a module's sets.
fn parts<K: Sink>(out: &mut K, gts: &Gts, lines: &[Line]) -> Result<(), SinkFailed>
    requires { LinesInside gts.now lines.now }
    ensures { Writes (K.state out.old) (K.state out.new) (texts_of_parts gts.now lines.now) result }
{
    for one in lines {
        write_text(out, "  ")?;
        between_braces(out, gts, one)?;
        write_text(out, "\n")?;
    }
    Ok(())
}

// The lines of short forms.
fn forms<K: Sink>(out: &mut K, gts: &Gts, lines: &[Line]) -> Result<(), SinkFailed>
    requires { LinesInside gts.now lines.now }
    ensures { Writes (K.state out.old) (K.state out.new) (texts_of_forms gts.now lines.now) result }
{
    for one in lines {
        between_braces(out, gts, one)?;
        write_text(out, "\n")?;
    }
    Ok(())
}

// How many short forms there are.
fn last<K: Sink>(out: &mut K, n: usize) -> Result<(), SinkFailed>
    ensures { Writes (K.state out.old) (K.state out.new) (lines_line n) result }
{
    write_text(out, "lines ")?;
    write_count(out, n)?;
    write_text(out, "\n")
}

// What stands in a line, in braces.
fn between_braces<K: Sink>(out: &mut K, gts: &Gts, line: &Line) -> Result<(), SinkFailed>
    requires { ArePiecesOf gts.now line.now.pieces.items }
    ensures { Writes (K.state out.old) (K.state out.new) (line_text gts.now line.now) result }
{
    write_text(out, "{")?;
    pieces(out, gts, &line.pieces)?;
    write_text(out, "}")
}

// Pieces, with commas between them.
fn pieces<K: Sink>(out: &mut K, gts: &Gts, pieces: &[Piece]) -> Result<(), SinkFailed>
    requires { ArePiecesOf gts.now pieces.now }
    ensures { Writes (K.state out.old) (K.state out.new)
        (separated true (codes ", ") (map (piece_text gts.now) pieces.now)) result }
{
    let Some((first, others)) = pieces.split_first() else {
        return Ok(());
    };
    piece(out, gts, *first)?;
    more_pieces(out, gts, others)
}

// Further pieces.
fn more_pieces<K: Sink>(out: &mut K, gts: &Gts, pieces: &[Piece]) -> Result<(), SinkFailed>
    requires { ArePiecesOf gts.now pieces.now }
    ensures { Writes (K.state out.old) (K.state out.new)
        (separated false (codes ", ") (map (piece_text gts.now) pieces.now)) result }
{
    for one in pieces {
        write_text(out, ", ")?;
        piece(out, gts, *one)?;
    }
    Ok(())
}

// A piece.
fn piece<K: Sink>(out: &mut K, gts: &Gts, piece: Piece) -> Result<(), SinkFailed>
    requires { IsInside gts.now piece }
    ensures { Writes (K.state out.old) (K.state out.new) (piece_text gts.now piece) result }
{
    match piece {
        Piece::Unit(unit) => mark(out, gts.parts(), unit),
        Piece::Way(way) => print_label(gts, way, out),
    }
}

// A unit in a line.
fn mark<K: Sink>(out: &mut K, parts: &GtsParts, unit: UnitId) -> Result<(), SinkFailed>
    ensures { Writes (K.state out.old) (K.state out.new)
        (unit_mark (text_at parts.now.units.items unit.n)) result }
{
    write_text(out, "[")?;
    write_text(out, text_at(&parts.units, unit.n))?;
    write_text(out, "]")
}
