//! The family of the firable sets.

ghost use Rattle.std.specs.Prelude.{List, OnOk};
ghost use Rattle.ar_firing.specs.Forest.{ModeTree};
ghost use Rattle.ar_firing.specs.Listed.{AreListed};
ghost use Rattle.ar_firing.specs.Trees.{HaveOwnEvents};
ghost use Rattle.zdd_nodes.specs.Families.{Family as Sets};
ghost use Rattle.zdd_nodes.specs.Sections.{IsCounted};
ghost use Rattle.zdd_nodes.specs.Nodes.{Draws, IsSoundStore};
ghost use Rattle.firable_families.specs.FirableInside.{IsFirableUpTo};
ghost use Rattle.firable_families.specs.Walk.{AreTreeFamilies};
ghost use Rattle.gate_diagrams.specs.Walked.{families_left, AreNumbers};

use crate::walk::walk;
use crate::walked::{State, Walked};
use std::alloc::Global;
use zdd_nodes::{NodeFault, NodeId, Store};
use zdd_ops::Ops;

/// The family of the sets of at most as many events as are asked for that are firable in the trees of which these are the
/// families of paths. Each node that is added is a counted section of the result.
pub(crate) fn firable_sets(
    alloc: Global,
    ops: &mut Ops,
    trees: &Store,
    paths: Vec<NodeId>,
    order: Option<u32>,
) -> Result<NodeId, NodeFault>
    requires sound { IsSoundStore trees.now }
    requires in_store { AreNumbers trees.now paths.items }
    requires made { IsSoundStore ops.old }
    ensures sound { OnOk result (IsSoundStore ops.new) }
    ensures drawn { (forest : List ModeTree)
        → AreTreeFamilies forest (families_left trees.now paths.items) → HaveOwnEvents forest
        → (all : Sets) → AreListed (IsFirableUpTo order forest) all
        → Draws (IsCounted all) all ops.old ops.new result }
{
    let mut walked = Walked::new(alloc);
    // The trees without an edge, with the empty set alone, would stand in each state of the walk and change nothing.
    let mut left = Vec::new(alloc);
    for tree in &paths {
        if tree.n != 1 {
            left.push(*tree)?;
        }
    }
    walk(alloc, ops, &mut walked, trees, State { left, order })
}
