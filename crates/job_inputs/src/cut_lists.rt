//! The cuts of a list.

ghost use Rattle.std.specs.Prelude.{◌≡◌, ◌≤◌, length, map, IfOk, IfErr, OnOk};
ghost use Rattle.ar_base.specs.Counts.{limit_of};
ghost use Rattle.ar_base.specs.declared.counts.Count.TheVariants.{ScriptBytes};
ghost use Rattle.gts_flatten.specs.Elaborating.{Elaborated};
ghost use Rattle.job_inputs.specs.CutLines.{is_comma, texts_in, trimmed};
ghost use Rattle.job_inputs.specs.Chains.{cut_of, HaveKnownWays, AnswersCuts};
ghost use Rattle.job_inputs.specs.CutReads.{AddsCuts, IsBadCutLine, AnswersLabels};
ghost use Rattle.job_inputs.specs.Flat.{IsOfTree};
ghost use Rattle.job_inputs.specs.Lines.{pieces};

use crate::cut_lines::{ListLine, list_line, trimmed};
use crate::cutting::first_piece;
use crate::faults::ScriptFault;
use crate::lines::first_line;
use crate::script_labels::way_named;
use ar_base::WayId;
use gts_core::{Chain, Gts};
use hierarchy::Tree;
use std::alloc::Global;

/// The cut lines of a list on the flat system of a tree, in order, each with its number and the ways of its labels; or the
/// first bad line: Line where it is no cut, and otherwise by its first bad label Which or Unknown, as in a script. Lines are
/// trimmed and skipped as those of a script; so are those that begin with `count`. Lines count from 1.
pub fn read_cuts(
    alloc: Global,
    tree: &Tree,
    gts: &Gts,
    text: &[u8],
) -> Result<Vec<Chain>, ScriptFault>
    requires tree { (x : Elaborated) × IsOfTree x tree.now gts.now }
    requires short { length text.now ≤ limit_of ScriptBytes }
    ensures cuts { (x : Elaborated) → IsOfTree x tree.now gts.now
        → AnswersCuts x gts.now text.now result }
    ensures known { IfOk result (λ chains. HaveKnownWays gts.now chains.items) }
{
    let mut chains = Vec::new(alloc);
    let mut rest = Some(text);
    let mut number = 1u32;
    while let Some(bytes) = rest {
        let (line, after) = first_line(bytes);
        add_cut(alloc, &mut chains, tree, gts, line, number)?;
        rest = after;
        number += 1;
    }
    Ok(chains)
}

// Adds the cut of the line of this number, if it has one.
fn add_cut(
    alloc: Global,
    chains: &mut Vec<Chain>,
    tree: &Tree,
    gts: &Gts,
    line: &[u8],
    number: u32,
) -> Result<(), ScriptFault>
    requires { (x : Elaborated) × IsOfTree x tree.now gts.now }
    ensures added { (x : Elaborated) → IsOfTree x tree.now gts.now
        → OnOk result (AddsCuts x line.now number (map (cut_of gts.now) chains.old.items)
        (map (cut_of gts.now) chains.new.items)) }
    ensures known { (x : Elaborated) → IsOfTree x tree.now gts.now
        → HaveKnownWays gts.now chains.old.items
        → OnOk result (HaveKnownWays gts.now chains.new.items) }
    ensures bad { (x : Elaborated) → IsOfTree x tree.now gts.now
        → IfErr result (λ fault. IsBadCutLine x line.now number fault) }
{
    let inner = match list_line(line) {
        ListLine::Passed => return Ok(()),
        ListLine::NoCut => return Err(ScriptFault::Line(number)),
        ListLine::Labels(inner) => inner,
    };
    let ways = ways_of(alloc, tree, gts, inner, number)?;
    chains.push(Chain { line: number, ways })?;
    Ok(())
}

// The ways of the labels between commas, or none where nothing stands there.
fn ways_of(
    alloc: Global,
    tree: &Tree,
    gts: &Gts,
    inner: &[u8],
    line: u32,
) -> Result<Vec<WayId>, ScriptFault>
    requires { (x : Elaborated) × IsOfTree x tree.now gts.now }
    ensures { (x : Elaborated) → IsOfTree x tree.now gts.now
        → AnswersLabels x gts.now (texts_in inner.now) line result }
{
    if trimmed(inner).is_empty() {
        return Ok(Vec::new(alloc));
    }
    ways_between(alloc, tree, gts, inner, line)
}

// The ways of the labels between commas.
fn ways_between(
    alloc: Global,
    tree: &Tree,
    gts: &Gts,
    inner: &[u8],
    line: u32,
) -> Result<Vec<WayId>, ScriptFault>
    requires { (x : Elaborated) × IsOfTree x tree.now gts.now }
    ensures { (x : Elaborated) → IsOfTree x tree.now gts.now
        → AnswersLabels x gts.now (map trimmed (pieces is_comma inner.now)) line result }
{
    let mut ways = Vec::new(alloc);
    let mut rest = Some(inner);
    while let Some(bytes) = rest {
        let (piece, after) = first_piece(bytes, b',');
        let way = way_named(alloc, tree, gts, trimmed(piece), line)?;
        ways.push(way)?;
        rest = after;
    }
    Ok(ways)
}
