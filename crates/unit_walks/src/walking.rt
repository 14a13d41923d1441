//! Walks along paths. What each name in a unit leads to is found once; what leads to nothing is found anew where it is
//! asked for again. A long path is walked once from each unit where it begins, and from the main block also where it
//! leads to nothing: all instances of a class whose path begins at the main block share one walk.

ghost use Rattle.std.specs.Prelude.{◌≡◌, ◌≤◌, List, [], true, length, IfOk, OnOk, Some};
ghost use Rattle.ar_base.specs.Lists.{Stands};
ghost use Rattle.ar_syntax.specs.declared.paths.Path.{Path as Written};
ghost use Rattle.hierarchy.specs.Models.{RootedModel};
ghost use Rattle.hierarchy.specs.Units.{UnitPath, kind_at};
ghost use Rattle.unit_walks.specs.Ends.{IsStatement};
ghost use Rattle.unit_walks.specs.Forms.{IsFormsFor};
ghost use Rattle.unit_walks.specs.Tables.{table_paths, IsWalkTable, IsEntrySet, IsEntered};
ghost use Rattle.unit_walks.specs.Walking.{IsFrame, IsAtStart, IsWalkStep, IsNameStep, IsStatementStep, StepsFrom, Weighs, IsWalking, IsTopAnswered, IsPathKept, IsRun, IsNameKnown};
ghost use Rattle.unit_walks.specs.declared.tables.Frame.{Frame as Walk};

use crate::forms::{Forms, UnitForm};
use crate::tables::{Frame, Known, Met, Reach, Table};
use ar_base::{Memory, NameId};
use ar_syntax::Path;
use std::alloc::Global;

/// A path of so many names or more is long: how far it leads is kept. To look that up is more work than to walk a
/// shorter one.
const LONG_PATH: usize = 8;

/// What a step of a walk comes to.
#[derive(Clone, Copy)]
pub(crate) enum Step<'a> {
    /// The walk goes on.
    On(Frame<'a>),
    /// Another statement is to be walked first.
    Into(Frame<'a>),
    /// It is known what the statement leads to.
    Done,
}

/// What the name leads to in the unit. That it is nothing is not kept in the table: a clone or an alias that names
/// nothing may stand in far more units than a tree has nodes, and no unit hangs from it.
pub(crate) fn known(
    alloc: Global,
    forms: &Forms,
    table: &mut Table,
    unit: u32,
    name: NameId,
) -> Result<Known, Memory>
    ensures { (m : RootedModel) (u : UnitPath) → IsFormsFor m forms.now → IsWalkTable m [] table.old
        → Stands (table_paths table.old) unit u
        → IfOk result (IsNameKnown m table.old table.new unit name.n) }
{
    match table.at(unit, name) {
        Some(known) => Ok(known),
        None => match discover(alloc, forms, table, unit, name)? {
            Known::Nothing => {
                table.forget(unit, name);
                Ok(Known::Nothing)
            }
            found => Ok(found),
        },
    }
}

// It is known what the top statement leads to.
fn answer<'a>(table: &mut Table, top: &Frame, known: Known) -> Result<Step<'a>, Memory>
    ensures { IfOk result (λ r. (r ≡ Step.Done)
        × IsEntrySet table.old table.new top.now.unit top.now.name.n known 0) }
{
    table.set(top.unit, top.name, known)?;
    Ok(Step::Done)
}

// The path of a clone has been walked to its end: the unit is of the same body and settings, in the
// clone's own unit.
fn copy<'a>(table: &mut Table, top: &Frame) -> Result<Step<'a>, Memory>
    ensures step { top.now.rest.now ≡ [] → top.now.is_clone ≡ true
        → IfOk result (IsWalkStep top.now table.old table.new) }
    ensures weighs { IfOk result (Weighs top.now table.old table.new) }
{
    let Some(target) = table.unit(top.at) else {
        return answer(table, top, Known::Nothing);
    };
    if table.has_body(top.unit, target.body) {
        return answer(table, top, Known::Loops);
    }
    let unit = table.meet(Met {
        owner: Some(top.unit),
        name: top.name,
        body: target.body,
        set_at: target.set_at,
    })?;
    answer(table, top, Known::ToUnit(unit))
}

// Keeps how far the path of an answered statement leads, if that is to be kept. Where it leads to nothing, that is kept
// of a path from the main block alone: one that begins at another unit would be kept for each instance of it.
fn keep_end(table: &mut Table, top: &Frame) -> Result<(), Memory>
    ensures kept { (m : RootedModel) (below : List Walk) (u v : UnitPath)
        → IsFrame m (table_paths table.old) top.now u v → IsTopAnswered m below top.now table.old
        → OnOk result (IsPathKept m below top.now table.old table.new) }
    ensures same { OnOk result (table.new.count ≡ table.old.count) }
{
    let Some(start) = top.start else {
        return Ok(());
    };
    if start != 0 && !top.rest.is_empty() {
        return Ok(());
    }
    let Some(here) = table.unit(top.unit) else {
        return Ok(());
    };
    let reach = Reach {
        unit: top.at,
        rest: top.rest.len(),
    };
    table.ends.insert((here.body.n, top.name.n, start), reach)?;
    Ok(())
}

// A unit that stands in the text, met for the first time.
fn enter(table: &mut Table, unit: u32, met: Met) -> Result<u32, Memory>
    ensures { IfOk result (IsEntered table.old table.new unit met) }
{
    let number = table.meet(met)?;
    table.add(unit, met.name, Known::ToUnit(number))?;
    Ok(number)
}

// The walk of a statement: from the start of its path, or, where it is kept how far a long path leads from there,
// from where it leads to.
fn begin<'a>(table: &Table, first: Frame<'a>) -> Frame<'a>
    ensures frame { (m : RootedModel) (frames : List Walk) (u : UnitPath) (p : Written)
        → IsWalkTable m frames table.now → IsAtStart m (table_paths table.now) first.entry u p
        → (v : UnitPath) × IsFrame m (table_paths table.now) result u v }
    ensures same { (result.unit ≡ first.entry.unit) × (result.name ≡ first.entry.name)
        × (result.is_clone ≡ first.entry.is_clone) }
    ensures short { length result.rest.now ≤ length first.entry.rest.now }
{
    if first.rest.len() < LONG_PATH {
        return first;
    }
    let Some(here) = table.unit(first.unit) else {
        return first;
    };
    match table.end(here.body, first.name, first.at) {
        None => Frame {
            start: Some(first.at),
            ..first
        },
        Some(reach) => {
            let passed = first.rest.len().saturating_sub(reach.rest);
            Frame {
                at: reach.unit,
                rest: &first.rest[passed..],
                ..first
            }
        }
    }
}

// A clone or an alias of which nothing is kept.
fn follow<'a>(
    table: &mut Table,
    top: &Frame<'a>,
    name: NameId,
    is_clone: bool,
    path: &'a Path,
) -> Result<Step<'a>, Memory>
    ensures step { IfOk result
        (IsStatementStep top.now name.n is_clone path.now table.old table.new) }
    ensures weighs { IfOk result (Weighs top.now table.old table.new) }
{
    match table.start(path.start, top.at) {
        None => {
            table.add(top.at, name, Known::Nothing)?;
            Ok(Step::On(*top))
        }
        Some(at) => {
            let first = Frame {
                unit: top.at,
                name,
                is_clone,
                at,
                rest: &path.names,
                start: None,
            };
            let next = begin(table, first);
            table.add(top.at, name, Known::Following)?;
            Ok(Step::Into(next))
        }
    }
}

// The next name, of which nothing is known.
fn look<'a>(
    forms: &Forms<'a>,
    table: &mut Table,
    top: &Frame<'a>,
    name: NameId,
) -> Result<Step<'a>, Memory>
    ensures step { IfOk result (IsNameStep forms.now top.now name.n table.old table.new) }
    ensures weighs { IfOk result (Weighs top.now table.old table.new) }
{
    let Some(here) = table.unit(top.at) else {
        return answer(table, top, Known::Nothing);
    };
    match forms.form(here.body, name) {
        None => answer(table, top, Known::Nothing),
        Some(UnitForm::Inner(body, set_at)) => {
            let owner = Some(top.at);
            enter(
                table,
                top.at,
                Met {
                    owner,
                    name,
                    body,
                    set_at,
                },
            )?;
            Ok(Step::On(*top))
        }
        Some(UnitForm::Clone(path)) => follow(table, top, name, true, path),
        Some(UnitForm::Alias(path)) => follow(table, top, name, false, path),
    }
}

// One step of the walk of the top statement.
fn take_step<'a>(forms: &Forms<'a>, table: &mut Table, top: &Frame<'a>) -> Result<Step<'a>, Memory>
    ensures step { (m : RootedModel) (below : List Walk) → IsFormsFor m forms.now
        → IsWalking m below top.now table.old
        → IfOk result (StepsFrom m below top.now table.old table.new) }
    ensures weighs { IfOk result (Weighs top.now table.old table.new) }
{
    let Some((name, rest)) = top.rest.split_first() else {
        if top.is_clone {
            return copy(table, top);
        }
        return answer(table, top, Known::ToUnit(top.at));
    };
    match table.at(top.at, *name) {
        None => look(forms, table, top, *name),
        Some(Known::ToUnit(at)) => Ok(Step::On(Frame { at, rest, ..*top })),
        Some(Known::Nothing) => answer(table, top, Known::Nothing),
        Some(Known::Loops) => answer(table, top, Known::Loops),
        Some(Known::Following) => answer(table, top, Known::Loops),
    }
}

// Walks the first statement, and each that has to be walked before it.
fn run<'a>(
    alloc: Global,
    forms: &Forms<'a>,
    table: &mut Table,
    first: Frame<'a>,
) -> Result<(), Memory>
    ensures { (m : RootedModel) → IsFormsFor m forms.now → IsWalking m [] first.entry table.old
        → OnOk result (IsRun m table.old table.new) }
{
    let mut below: Vec<Frame<'a>> = Vec::new(alloc);
    let mut top = first;
    'walk: loop {
        match take_step(forms, table, &top)? {
            Step::On(next) => top = next,
            Step::Into(next) => {
                below.push(top)?;
                top = next;
            }
            Step::Done => {
                keep_end(table, &top)?;
                match below.pop() {
                    None => return Ok(()),
                    Some(next) => top = next,
                }
            }
        }
    }
}

// What a clone or an alias of the unit leads to, of which nothing is known.
fn statement(
    alloc: Global,
    forms: &Forms,
    table: &mut Table,
    unit: u32,
    name: NameId,
    is_clone: bool,
    path: &Path,
) -> Result<Known, Memory>
    ensures { (m : RootedModel) (u : UnitPath) → IsFormsFor m forms.now → IsWalkTable m [] table.old
        → Stands (table_paths table.old) unit u → IsStatement path.now is_clone (kind_at m u name.n)
        → IfOk result (IsNameKnown m table.old table.new unit name.n) }
{
    match table.start(path.start, unit) {
        None => {
            table.add(unit, name, Known::Nothing)?;
            Ok(Known::Nothing)
        }
        Some(at) => {
            let first = Frame {
                unit,
                name,
                is_clone,
                at,
                rest: &path.names,
                start: None,
            };
            let next = begin(table, first);
            table.add(next.unit, next.name, Known::Following)?;
            run(alloc, forms, table, next)?;
            match table.at(next.unit, next.name) {
                None => Ok(Known::Nothing),
                Some(known) => Ok(known),
            }
        }
    }
}

// What the name leads to in the unit, of which nothing is known.
fn discover(
    alloc: Global,
    forms: &Forms,
    table: &mut Table,
    unit: u32,
    name: NameId,
) -> Result<Known, Memory>
    ensures { (m : RootedModel) (u : UnitPath) → IsFormsFor m forms.now → IsWalkTable m [] table.old
        → Stands (table_paths table.old) unit u
        → IfOk result (IsNameKnown m table.old table.new unit name.n) }
{
    let Some(here) = table.unit(unit) else {
        return Ok(Known::Nothing);
    };
    match forms.form(here.body, name) {
        None => Ok(Known::Nothing),
        Some(UnitForm::Inner(body, set_at)) => {
            let owner = Some(unit);
            let number = enter(
                table,
                unit,
                Met {
                    owner,
                    name,
                    body,
                    set_at,
                },
            )?;
            Ok(Known::ToUnit(number))
        }
        Some(UnitForm::Clone(path)) => statement(alloc, forms, table, unit, name, true, path),
        Some(UnitForm::Alias(path)) => statement(alloc, forms, table, unit, name, false, path),
    }
}
