//! The family of a diagram, tree by tree.

ghost use Rattle.std.specs.Prelude.{◌≤◌, ◌+◌, ◌<◌, IfOk, length};
ghost use Rattle.zdd_nodes.specs.Nodes.{family, IsFamilyNumber, IsSoundStore};
ghost use Rattle.mode_nodes.specs.Diagrams.{IsDiagramNumber, IsFrom};
ghost use Rattle.diagram_steps.specs.Putting.{Extends};
ghost use Rattle.mode_diagrams.specs.Trees.{AreNumbered};
ghost use Rattle.mode_diagrams.specs.Sets.{AreSmall, HasSets, IsTrueFrom};
ghost use Rattle.mode_diagrams.specs.Kept.{AreHeld, IsTrueIn};

use crate::held::{Held, State};
use crate::paths::with_path;
use crate::undrawn::Undrawn;
use ar_base::MOST_NODES;
use diagram_steps::NumberedTree;
use mode_nodes::{DiagramId, Diagrams};
use std::alloc::Global;
use zdd_nodes::{NodeFault, NodeId, Store};
use zdd_ops::Ops;

/// The family of the sets of events on paths whose modes cost no more than is enough and at whose modes the diagram is true.
/// Beyond comes where more nodes were made on the way than a store may have, which says nothing of the family.
pub fn list_sets(
    alloc: Global,
    trees: &[NumberedTree],
    diagrams: &Diagrams,
    f: DiagramId,
) -> Result<Listed, Undrawn>
    requires few { length trees.now ≤ 4294967295 }
    requires numbered { AreNumbered trees.now }
    requires small { AreSmall trees.now }
    requires paid { length diagrams.now.costs ≤ length trees.now }
    requires number { IsDiagramNumber diagrams.now.store f.n }
    ensures sound { IfOk result (λ l. IsSoundStore l.store) }
    ensures in_store { IfOk result (λ l. IsFamilyNumber l.store l.root.n) }
    ensures sets { IfOk result (λ l. HasSets (IsTrueFrom trees.now 0 diagrams.now f.n)
        (family l.store l.root.n)) }
{
    let mut ops = Ops::new(alloc, MOST_NODES);
    let mut held = Held::new(alloc);
    let whole = State {
        place: 0,
        most: diagrams.most(),
        diagram: f,
    };
    let root = family_from(&mut ops, &mut held, trees, diagrams, whole)?;
    Ok(Listed {
        store: ops.into_store(),
        root,
    })
}

/// The family of the sets of events on paths, in the trees from the state's place on, whose modes cost no more than is left
/// and at whose modes the diagram is true: for each mode of the tree that costs no more, those of what is left of the diagram
/// there, in the later trees and by what is left then, with the events on the path to the mode.
fn family_from(
    ops: &mut Ops,
    held: &mut Held,
    trees: &[NumberedTree],
    diagrams: &Diagrams,
    state: State,
) -> Result<NodeId, NodeFault>
    requires few { length trees.now ≤ 4294967295 }
    requires numbered { AreNumbered trees.now }
    requires small { AreSmall trees.now }
    requires paid { length diagrams.now.costs ≤ length trees.now }
    requires place_in { state.place ≤ length trees.now }
    requires number { IsDiagramNumber diagrams.now.store state.diagram.n }
    requires from { IsFrom diagrams.now.store.nodes state.place state.diagram.n }
    requires held { AreHeld trees.now diagrams.now ops.old held.old }
    ensures grows { Extends ops.old ops.new }
    ensures held { AreHeld trees.now diagrams.now ops.new held.new }
    ensures in_store { IfOk result (λ n. IsFamilyNumber ops.new n.n) }
    ensures sets { IfOk result (λ n. HasSets (IsTrueIn trees.now diagrams.now state) (family ops.new n.n)) }
{
    if state.place as usize == trees.len() {
        return Ok(NodeId::new(u32::from(diagrams.holds_at_first(state.diagram))));
    }
    if state.diagram.n == 0 {
        return Ok(NodeId::new(0));
    }
    if let Some(number) = held.recall(state) {
        return Ok(number);
    }
    let tree = &trees[state.place as usize];
    let mut sets = NodeId::new(0);
    for mode in 0..tree.edges.len() + 1 {
        let cost = diagrams.cost(state.place, mode as u32);
        if cost > state.most {
            continue;
        }
        let next = State {
            place: state.place + 1,
            most: state.most - cost,
            diagram: diagrams.branch(state.diagram, state.place, mode as u32),
        };
        let later = family_from(ops, held, trees, diagrams, next)?;
        let here = with_path(ops, tree, mode as u32, later)?;
        sets = ops.union(sets, here)?;
    }
    held.remember(state, sets)
}

/// A family in a store of its own, which may have families besides.
#[derive(Drop)]
pub struct Listed {
    /// The store.
    pub store: Store,
    /// The number of the family.
    pub root: NodeId,
}
