//! The least firable sets, drawn over the modes of the trees.

ghost use Rattle.std.specs.Prelude.{◌≤◌, IfOk, List, length, map};
ghost use Rattle.std.specs.List.{All};
ghost use Rattle.ar_firing.specs.Forest.{ModeTree};
ghost use Rattle.ar_firing.specs.Listed.{AreListed};
ghost use Rattle.ar_firing.specs.Trees.{AreTrees};
ghost use Rattle.mode_trees.specs.Views.{trees_of};
ghost use Rattle.zdd_nodes.specs.Families.{Family as Sets};
ghost use Rattle.eq_core.specs.Gates.{Gate as GateOf, Operand as OperandOf};
ghost use Rattle.eq_core.specs.Ordered.{AreOrdered, IsOrderedTable};
ghost use Rattle.eq_core.specs.ValuesInside.{IsBelow};
ghost use Rattle.eq_core.specs.Views.{gate_of, operand_of, table_of};
ghost use Rattle.firable_families.specs.FirableInside.{IsFirableUpTo};
ghost use Rattle.mode_diagrams.specs.Trees.{AreNumbered, AreApart};
ghost use Rattle.mode_diagrams.specs.Costs.{HaveDifferentEvents};
ghost use Rattle.mode_diagrams.specs.Numbers.{HasFewEdges, IsByModes};
ghost use Rattle.coherent_cuts.specs.Gates.{HasLeastFirable};
ghost use Rattle.gate_diagrams.specs.ByModes.{AnswersByModes, DrawsByModes, HasValueOf};

use crate::answer::{Drawn, Family};
use crate::by_use::least_by_use;
use crate::listed::{MOST_DIAGRAMS, least_within};
use ar_base::Memory;
use diagram_steps::{NumberedTree, in_order};
use eq_core::{Equations, Gate, Operand};
use gate_sharing::simplified;
use mode_diagrams::{Listed, Undrawn, copied, numbered};
use mode_trees::Forest;
use std::alloc::Global;
use zdd_nodes::{NodeFault, NodeId};
use zdd_ops::Ops;

/// Why there is no answer by mode diagrams.
#[derive(Clone, Copy)]
pub(crate) enum Unanswered {
    /// Mode diagrams do not suffice.
    Beyond,
    /// The store of the answer got no node.
    Nodes(NodeFault),
}

impl From<NodeFault> for Unanswered {
    ghost use Rattle.std.specs.Prelude.{◌≡◌};
    ghost use Rattle.gate_diagrams.specs.declared.by_modes.Unanswered.TheVariants as why;

    ghost from_gives = { λ fault e. e ≡ why.Nodes fault };

    fn from(fault: NodeFault) -> Self {
        Unanswered::Nodes(fault)
    }
}

impl From<Undrawn> for Unanswered {
    ghost use Rattle.std.specs.Prelude.{◌≡◌};
    ghost use Rattle.gate_diagrams.specs.ByModes.{unanswered_of};

    ghost from_gives = { λ undrawn e. e ≡ unanswered_of undrawn };

    fn from(undrawn: Undrawn) -> Self {
        match undrawn {
            Undrawn::Beyond => Unanswered::Beyond,
            Undrawn::Memory => Unanswered::Nodes(NodeFault::Memory),
        }
    }
}

impl From<Memory> for Unanswered {
    ghost use Rattle.std.specs.Prelude.{◌≡◌};
    ghost use Rattle.zdd_nodes.specs.declared.NodeFault.TheVariants as fault;
    ghost use Rattle.gate_diagrams.specs.declared.by_modes.Unanswered.TheVariants as why;

    ghost from_gives = { λ _ e. e ≡ why.Nodes fault.Memory };

    fn from(memory: Memory) -> Self {
        Unanswered::Nodes(memory.into())
    }
}

/// The order in which trees are drawn.
#[derive(Clone, Copy)]
enum TreeOrder {
    /// For each operand that in which its gates use them, and only those that it uses.
    OfUse,
    /// That of their events.
    Declared,
}

/// The answer by mode diagrams, of the firable sets of at most as many events as are asked for: over the trees in the order of
/// their use, and where that takes too many nodes, in the order of their events.
pub(crate) fn by_modes(
    alloc: Global,
    equations: &Equations,
    forest: &Forest,
    order: Option<u32>,
    limit: u32,
) -> Result<Drawn, Unanswered>
    requires limit { limit ≤ 16777216 }
    requires table { IsOrderedTable (table_of equations.now) }
    requires trees { AreTrees (trees_of (λ n. n) forest.now) }
    ensures { (all : Sets) → AreListed (IsFirableUpTo order (trees_of (λ n. n) forest.now)) all
        → AnswersByModes order (trees_of (λ n. n) forest.now) (table_of equations.now) all limit
        result }
{
    match by_use(alloc, equations, forest, order, limit) {
        Err(Unanswered::Beyond) => as_declared(alloc, equations, forest, order, limit),
        answer => answer,
    }
}

// The answer over the trees in the order of their use.
fn by_use(
    alloc: Global,
    equations: &Equations,
    forest: &Forest,
    order: Option<u32>,
    limit: u32,
) -> Result<Drawn, Unanswered>
    requires limit { limit ≤ 16777216 }
    requires table { IsOrderedTable (table_of equations.now) }
    requires trees { AreTrees (trees_of (λ n. n) forest.now) }
    ensures { (all : Sets) → AreListed (IsFirableUpTo order (trees_of (λ n. n) forest.now)) all
        → AnswersByModes order (trees_of (λ n. n) forest.now) (table_of equations.now) all limit
        result }
{
    let Some(trees) = numbered(alloc, &forest.trees)? else {
        return Err(Unanswered::Beyond);
    };
    if trees.len() > u32::MAX as usize {
        return Err(Unanswered::Beyond);
    }
    answer_by_modes(alloc, equations, &trees, TreeOrder::OfUse, order, limit)
}

// The answer over the trees in the order of their events.
fn as_declared(
    alloc: Global,
    equations: &Equations,
    forest: &Forest,
    order: Option<u32>,
    limit: u32,
) -> Result<Drawn, Unanswered>
    requires limit { limit ≤ 16777216 }
    requires table { IsOrderedTable (table_of equations.now) }
    requires trees { AreTrees (trees_of (λ n. n) forest.now) }
    ensures { (all : Sets) → AreListed (IsFirableUpTo order (trees_of (λ n. n) forest.now)) all
        → AnswersByModes order (trees_of (λ n. n) forest.now) (table_of equations.now) all limit
        result }
{
    let Some(numbers) = numbered(alloc, &forest.trees)? else {
        return Err(Unanswered::Beyond);
    };
    let Some(trees) = in_order(numbers)? else {
        return Err(Unanswered::Beyond);
    };
    if trees.len() > u32::MAX as usize {
        return Err(Unanswered::Beyond);
    }
    answer_by_modes(alloc, equations, &trees, TreeOrder::Declared, order, limit)
}

// The least sets with a conflict, or, where there are none, those that make the value. What is drawn is a simplified table: at
// every set it has the values of the one that is given, and its conflict operand is often Never, for which nothing is drawn.
fn answer_by_modes(
    alloc: Global,
    equations: &Equations,
    trees: &[NumberedTree],
    tree_order: TreeOrder,
    order: Option<u32>,
    limit: u32,
) -> Result<Drawn, Unanswered>
    requires limit { limit ≤ 16777216 }
    requires table { IsOrderedTable (table_of equations.now) }
    requires few { length trees.now ≤ 4294967295 }
    requires numbered { AreNumbered trees.now }
    requires apart { AreApart trees.now }
    requires different { HaveDifferentEvents trees.now }
    requires small { All HasFewEdges trees.now }
    ensures { (forest : List ModeTree) → IsByModes forest trees.now → (all : Sets)
        → AreListed (IsFirableUpTo order forest) all
        → AnswersByModes order forest (table_of equations.now) all limit result }
{
    let Some(table) = simplified(alloc, equations)? else {
        return Err(Unanswered::Beyond);
    };
    let mut ops = Ops::new(alloc, limit);
    let conflict = least_at(
        alloc,
        &mut ops,
        trees,
        tree_order,
        &table.gates,
        table.conflict,
        order,
    )?;
    if conflict.n != 0 {
        return Ok(Drawn::Conflicts(Family {
            store: ops.into_store(),
            root: conflict,
        }));
    }
    let top = least_at(
        alloc,
        &mut ops,
        trees,
        tree_order,
        &table.gates,
        table.top,
        order,
    )?;
    Ok(Drawn::Cuts(Family {
        store: ops.into_store(),
        root: top,
    }))
}

// The least sets of an operand. Of the nodes that finding them takes, none but those of their family come into the store.
fn least_at(
    alloc: Global,
    ops: &mut Ops,
    trees: &[NumberedTree],
    tree_order: TreeOrder,
    gates: &[Gate],
    root: Operand,
    order: Option<u32>,
) -> Result<NodeId, Unanswered>
    requires few { length trees.now ≤ 4294967295 }
    requires numbered { AreNumbered trees.now }
    requires apart { AreApart trees.now }
    requires different { HaveDifferentEvents trees.now }
    requires small { All HasFewEdges trees.now }
    requires ordered { AreOrdered (map gate_of gates.now) }
    requires root_in { IsBelow (length gates.now) (operand_of root) }
    ensures { (forest : List ModeTree) → IsByModes forest trees.now → (all : Sets)
        → AreListed (IsFirableUpTo order forest) all → (old : List GateOf) (o : OperandOf)
        → HasValueOf old o (map gate_of gates.now) (operand_of root)
        → DrawsByModes all old o ops.old ops.new result }
{
    let least = least_in_order(alloc, trees, tree_order, gates, root, order)?;
    Ok(copied(alloc, ops, &least.store, least.root)?)
}

// The least firable sets of the operand, drawn over the trees in this order.
fn least_in_order(
    alloc: Global,
    trees: &[NumberedTree],
    tree_order: TreeOrder,
    gates: &[Gate],
    root: Operand,
    order: Option<u32>,
) -> Result<Listed, Undrawn>
    requires few { length trees.now ≤ 4294967295 }
    requires numbered { AreNumbered trees.now }
    requires apart { AreApart trees.now }
    requires different { HaveDifferentEvents trees.now }
    requires small { All HasFewEdges trees.now }
    requires ordered { AreOrdered (map gate_of gates.now) }
    requires root_in { IsBelow (length gates.now) (operand_of root) }
    ensures { IfOk result
        (λ l. HasLeastFirable order trees.now (map gate_of gates.now) (operand_of root) l) }
{
    match tree_order {
        TreeOrder::OfUse => least_by_use(alloc, trees, gates, root, order),
        TreeOrder::Declared => least_within(alloc, trees, gates, root, order, MOST_DIAGRAMS),
    }
}
