//! The modes that one variable reaches.

ghost use Rattle.std.specs.Prelude.{◌<◌, length, IfOk};
ghost use Rattle.domains.specs.Domains.{IsDomain, values_of};
ghost use Rattle.gts_core.specs.Sound.{IsSound};
ghost use Rattle.mode_search.specs.Reached.{AreWaysOfParts, AreDifferentWays, IsMoveOf, IsReach, Expands, AddsMove};

use crate::edges::add_edge;
use crate::{KeptWay, Move, move_at};
use ar_base::{EventId, Memory, VarId, WayId};
use domains::{Domain, Value};
use gts_core::{GtsParts, WayBody};
use mode_trees::Edge;
use std::alloc::Global;

/// What a variable reaches.
#[derive(Drop)]
pub struct Reach {
    /// The modes that are reached, from the initial one on, each once.
    pub modes: Vec<Value>,
    /// The edges from these modes, by the order of these and then by that of the ways.
    pub edges: Vec<Edge>,
    /// Whether a way can fire at one of these modes and does not give exactly one value of the domain there.
    pub wrong: bool,
    /// Whether an edge enters the initial mode, or one that an earlier edge enters.
    pub again: bool,
}

/// The modes that a variable reaches from its initial value along the edges of these ways, and these edges. Each way is
/// looked at once at each mode. The error is want of memory.
pub fn reached(
    alloc: Global,
    parts: &GtsParts,
    variable: VarId,
    ways: &[KeptWay],
) -> Result<Reach, Memory>
    requires sound { IsSound parts.now }
    requires variable { variable.n < length parts.now.variables.items }
    requires inside { AreWaysOfParts parts.now ways.now }
    requires apart { AreDifferentWays ways.now }
    ensures { IfOk result (IsReach parts.now variable.n ways.now) }
{
    let place = &parts.variables[variable.n as usize];
    let mut modes = Vec::new(alloc);
    modes.push(place.value)?;
    let mut found = Reach {
        modes,
        edges: Vec::new(alloc),
        wrong: false,
        again: false,
    };
    let mut next = 0;
    while next < found.modes.len() {
        let mode = found.modes[next];
        expand(
            alloc,
            parts,
            variable,
            &place.domain,
            ways,
            mode,
            &mut found,
        )?;
        next += 1;
    }
    Ok(found)
}

// Looks at each way at a mode.
fn expand(
    alloc: Global,
    parts: &GtsParts,
    variable: VarId,
    domain: &Domain,
    ways: &[KeptWay],
    mode: Value,
    found: &mut Reach,
) -> Result<(), Memory>
    requires domain { IsDomain domain.now }
    requires inside { AreWaysOfParts parts.now ways.now }
    ensures { IfOk result (λ _. Expands parts.now variable.n (values_of domain.now) ways.now mode
        (length ways.now) found.old found.new) }
{
    for way in ways {
        let led = move_of(alloc, parts, variable, domain, way.way, mode)?;
        add_move(*way, mode, led, found)?;
    }
    Ok(())
}

// Where a way leads from a mode.
fn move_of(
    alloc: Global,
    parts: &GtsParts,
    variable: VarId,
    domain: &Domain,
    way: WayId,
    mode: Value,
) -> Result<Move, Memory>
    requires domain { IsDomain domain.now }
    requires inside { way.n < length parts.now.ways.items }
    ensures { IfOk result (IsMoveOf parts.now variable.n (values_of domain.now) way.n mode) }
{
    match &parts.ways[way.n as usize].body {
        WayBody::Local(guard, action) => {
            let led = move_at(alloc, variable, domain, mode, guard, action)?;
            Ok(led)
        }
        WayBody::Sync(_) => Ok(Move::Still),
    }
}

// Adds where a way leads from a mode.
fn add_move(way: KeptWay, mode: Value, led: Move, found: &mut Reach) -> Result<(), Memory>
    ensures { IfOk result (λ _. AddsMove way mode led found.old found.new) }
{
    match led {
        Move::Still => Ok(()),
        Move::Wrong => {
            found.wrong = true;
            Ok(())
        }
        Move::To(to) => {
            let edge = Edge {
                from: mode,
                event: way.event,
                way: way.way,
                to,
            };
            let known = add_edge(edge, &mut found.modes, &mut found.edges)?;
            if known {
                found.again = true;
            }
            Ok(())
        }
    }
}
