//! Ranks of numbers that rows lead to, which tell apart those that do not lead to each other.

ghost use Rattle.std.specs.Prelude.{◌≡◌, ◌<◌, ◌≤◌, ◌+◌, ◌^◌, ℕ, Vec, List, [], ◌∷◌, length, IfOk, OnOk, IfSome, IfNone};
ghost use Rattle.std.specs.Global.{Global};
ghost use Rattle.ar_base.specs.Lists.{IsOneOf};
ghost use Rattle.class_table.specs.Rows.{IsInRow};
ghost use Rattle.class_table.specs.Ranks.{AreRanks, AreTurned, AddsSource, IsRanking, IsMarked, count_unranked, count_entries};

use crate::order::empty_rows;
use ar_base::Memory;
use std::alloc::Global;

/// Gives numbers ranks: where one in a row has a rank, the number of the row has one that is at most
/// as great. By Kosaraju's search, in time linear in the rows: each number has a rank, and two have
/// one rank only where each leads to the other.
pub(crate) fn ranks(alloc: Global, rows: Vec<Vec<u32>>) -> Result<Vec<Option<usize>>, Memory>
    requires { length rows.items < 2 ^ 32 }
    ensures { IfOk result (λ ranks. AreRanks rows.items ranks.items) }
{
    let sources = turned(alloc, &rows)?;
    let mut ranks = vec![in alloc; None; rows.len()]?;
    let order = order_left(alloc, rows)?;
    for rank in 0..order.len() {
        let number = order[order.len() - 1 - rank];
        give(alloc, &sources, &mut ranks, number, rank)?;
    }
    Ok(ranks)
}

// For each number those in whose rows it is.
fn turned(alloc: Global, rows: &[Vec<u32>]) -> Result<Vec<Vec<u32>>, Memory>
    requires { length rows.now < 2 ^ 32 }
    ensures { IfOk result (λ sources. AreTurned rows.now sources.items) }
{
    let mut sources = empty_rows(alloc, rows.len())?;
    for (from, row) in rows.iter().enumerate() {
        add_source(&mut sources, row, from as u32)?;
    }
    Ok(sources)
}

// Adds a number to the rows of each of these.
fn add_source(sources: &mut [Vec<u32>], row: &[u32], from: u32) -> Result<(), Memory>
    ensures { OnOk result (AddsSource row.now from sources.old sources.new) }
{
    for to in row {
        let place = *to as usize;
        if place < sources.len() {
            sources[place].push(from)?;
        }
    }
    Ok(())
}

// The numbers of these rows in the order in which a search in depth leaves them.
fn order_left(alloc: Global, rows: Vec<Vec<u32>>) -> Result<Vec<u32>, Memory>
    requires { length rows.items < 2 ^ 32 }
{
    let mut rows = rows;
    let mut met = vec![in alloc; false; rows.len()]?;
    let mut order = Vec::with_capacity(alloc, rows.len())?;
    let mut path = Vec::new(alloc);
    for first in 0..rows.len() {
        enter(&mut met, &mut path, first as u32)?;
        leave(&mut rows, &mut met, &mut path, &mut order)?;
    }
    Ok(order)
}

// Goes on along a path, and leaves the numbers on it, until none is left.
fn leave(
    rows: &mut [Vec<u32>],
    met: &mut [bool],
    path: &mut Vec<u32>,
    order: &mut Vec<u32>,
) -> Result<(), Memory> {
    while let Some(number) = path.pop() {
        match next_in(rows, number) {
            Some(next) => {
                path.push(number)?;
                enter(met, path, next)?;
            }
            None => order.push(number)?,
        }
    }
    Ok(())
}

// Takes the last number of a row, if there is one.
fn next_in(rows: &mut [Vec<u32>], number: u32) -> Option<u32>
    ensures some { IfSome result (λ _. count_entries rows.new < count_entries rows.old) }
    ensures none { IfNone result (count_entries rows.new ≡ count_entries rows.old) }
{
    let place = number as usize;
    if place >= rows.len() {
        return None;
    }
    rows[place].pop()
}

// Puts a number on the path, where it was not met yet.
fn enter(met: &mut [bool], path: &mut Vec<u32>, number: u32) -> Result<(), Memory>
    ensures { OnOk result (length path.new.items ≤ length path.old.items + 1) }
{
    let place = number as usize;
    if place < met.len() && !met[place] {
        met[place] = true;
        path.push(number)?;
    }
    Ok(())
}

// Gives the rank to the number and to all that lead to it, where they have none yet.
fn give(
    alloc: Global,
    sources: &[Vec<u32>],
    ranks: &mut [Option<usize>],
    number: u32,
    rank: usize,
) -> Result<(), Memory>
    ensures { (rows : List (Vec ℕ Global)) → AreTurned rows sources.now
        → IsRanking rows rank ranks.old [] [] → OnOk result (IsRanking rows rank ranks.new [] []) }
{
    let mut open = Vec::new(alloc);
    mark(ranks, &mut open, number, rank)?;
    while let Some(next) = open.pop() {
        mark_sources(sources, ranks, &mut open, next, rank)?;
    }
    Ok(())
}

// Gives the rank to those in whose rows the number is, where they have none yet.
fn mark_sources(
    sources: &[Vec<u32>],
    ranks: &mut [Option<usize>],
    open: &mut Vec<u32>,
    number: u32,
    rank: usize,
) -> Result<(), Memory>
    ensures ranks { (rows : List (Vec ℕ Global)) → AreTurned rows sources.now
        → IsRanking rows rank ranks.old open.old.items (number ∷ [])
        → OnOk result (IsRanking rows rank ranks.new open.new.items []) }
    ensures left { OnOk result (count_unranked ranks.new + length open.new.items
        ≤ count_unranked ranks.old + length open.old.items) }
{
    match sources.get(number as usize) {
        Some(row) => mark_all(ranks, open, row, rank),
        None => Ok(()),
    }
}

// Gives the rank to these numbers, where they have none yet.
fn mark_all(
    ranks: &mut [Option<usize>],
    open: &mut Vec<u32>,
    row: &[u32],
    rank: usize,
) -> Result<(), Memory>
    ensures ranks { (rows : List (Vec ℕ Global)) (pending : List ℕ)
        → IsRanking rows rank ranks.old open.old.items pending
        → OnOk result (IsRanking rows rank ranks.new open.new.items pending
        × ((a : ℕ) → IsOneOf row.now a → IsMarked a rank ranks.new)) }
    ensures left { OnOk result (count_unranked ranks.new + length open.new.items
        ≤ count_unranked ranks.old + length open.old.items) }
{
    for number in row {
        mark(ranks, open, *number, rank)?;
    }
    Ok(())
}

// Gives the rank to a number, where it has none yet.
fn mark(
    ranks: &mut [Option<usize>],
    open: &mut Vec<u32>,
    number: u32,
    rank: usize,
) -> Result<(), Memory>
    ensures ranks { (rows : List (Vec ℕ Global)) (pending : List ℕ)
        → IsRanking rows rank ranks.old open.old.items pending
        → OnOk result (IsRanking rows rank ranks.new open.new.items pending
        × IsMarked number rank ranks.new
        × ((a : ℕ) → IsMarked a rank ranks.old → IsMarked a rank ranks.new)) }
    ensures left { OnOk result (count_unranked ranks.new + length open.new.items
        ≤ count_unranked ranks.old + length open.old.items) }
{
    let place = number as usize;
    if place >= ranks.len() {
        return Ok(());
    }
    if ranks[place].is_some() {
        return Ok(());
    }
    ranks[place] = Some(rank);
    open.push(number)?;
    Ok(())
}
