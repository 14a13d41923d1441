//! The least firable sets of a forest.

ghost use Rattle.std.specs.Prelude.{◌≡◌, ◌≤◌, IfOk, length};
ghost use Rattle.ar_firing.specs.Listed.{AreListed};
ghost use Rattle.ar_firing.specs.Trees.{AreTrees};
ghost use Rattle.mode_trees.specs.Views.{trees_of};
ghost use Rattle.zdd_nodes.specs.Families.{Family as Sets};
ghost use Rattle.eq_core.specs.Ordered.{IsOrderedTable};
ghost use Rattle.eq_core.specs.Views.{table_of};
ghost use Rattle.firable_families.specs.FirableInside.{IsFirableOf, IsFirableUpTo};
ghost use Rattle.gate_diagrams.specs.NodeLimits.{NodesMay, NodesMayUpTo};
ghost use Rattle.gate_diagrams.specs.Answers.{IsDrawnAnswer, IsAnswerUpTo, AreNeeded, store_of};

use crate::answer::{Drawn, answer};
use crate::by_modes::{Unanswered, by_modes};
use crate::firable::firable_sets;
use crate::paths::forest_paths;
use ar_base::{Cap, MOST_NODES, Memory};
use eq_core::Equations;
use mode_trees::Forest;
use std::alloc::Global;
use zdd_nodes::NodeFault;
use zdd_ops::Ops;

/// The least sets that are firable in the forest's trees and at which the table's conflict operand
/// is true, or, where there are none, the least ones at which its top operand is. The answer's
/// store has what is needed for that and no more, in at most `limit` nodes; Full comes only where
/// more are needed. They are drawn over the modes of the trees where that takes few nodes, else by
/// a walk through the events. The paths of the trees stand in a store of their own, and where that
/// is full the answer is Memory.
pub fn diagrams(
    alloc: Global,
    equations: &Equations,
    forest: &Forest,
    limit: u32,
) -> Result<Drawn, NodeFault>
    requires limit { limit ≤ 16777216 }
    requires table { IsOrderedTable (table_of equations.now) }
    requires trees { AreTrees (trees_of (λ n. n) forest.now) }
    ensures sets { IfOk result
        (λ d. IsDrawnAnswer (trees_of (λ n. n) forest.now) (table_of equations.now) d) }
    ensures needed { (all : Sets) → AreListed (IsFirableOf (trees_of (λ n. n) forest.now)) all
        → IfOk result (λ d. AreNeeded all (table_of equations.now) d) }
    ensures within { IfOk result (λ d. length (store_of d).families ≤ limit) }
    ensures full { result ≡ Err NodeFault.Full
        → NodesMay (trees_of (λ n. n) forest.now) (table_of equations.now) limit }
{
    diagrams_up_to(alloc, equations, forest, None, limit)
}

/// The same of the sets of at most `order` events alone, where a number is given: the least of these with a conflict, or,
/// where none of them has one, the least of these at which the top operand is true. Full comes only where more nodes than
/// `limit` are needed for them.
pub fn diagrams_up_to(
    alloc: Global,
    equations: &Equations,
    forest: &Forest,
    order: Option<u32>,
    limit: u32,
) -> Result<Drawn, NodeFault>
    requires limit { limit ≤ 16777216 }
    requires table { IsOrderedTable (table_of equations.now) }
    requires trees { AreTrees (trees_of (λ n. n) forest.now) }
    ensures sets { IfOk result
        (λ d. IsAnswerUpTo order (trees_of (λ n. n) forest.now) (table_of equations.now) d) }
    ensures needed { (all : Sets) → AreListed (IsFirableUpTo order (trees_of (λ n. n) forest.now)) all
        → IfOk result (λ d. AreNeeded all (table_of equations.now) d) }
    ensures within { IfOk result (λ d. length (store_of d).families ≤ limit) }
    ensures full { result ≡ Err NodeFault.Full
        → NodesMayUpTo order (trees_of (λ n. n) forest.now) (table_of equations.now) limit }
{
    let mut trees = Ops::new(alloc, MOST_NODES);
    let paths = match forest_paths(alloc, &mut trees, &forest.trees) {
        Ok(paths) => paths,
        // Their store is a table of a walk over the trees of all units, and its limit a cap of the program's own, which
        // stands for no caller's limit.
        Err(NodeFault::Full) => return Err(Memory::from(Cap::WalkEntries).into()),
        Err(NodeFault::Memory) => return Err(NodeFault::Memory),
    };
    let trees = trees.into_store();
    match by_modes(alloc, equations, forest, order, limit) {
        Ok(drawn) => return Ok(drawn),
        Err(Unanswered::Nodes(fault)) => return Err(fault),
        Err(Unanswered::Beyond) => {}
    }
    let mut ops = Ops::new(alloc, limit);
    let firable = firable_sets(alloc, &mut ops, &trees, paths, order)?;
    answer(alloc, ops, equations, firable)
}
