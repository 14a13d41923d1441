//! The least firable sets at which a table's operands are true.

ghost use Rattle.std.specs.Prelude.{◌≡◌, ◌≤◌, ℕ, List, Option, IfOk, OnOk, map, length};
ghost use Rattle.std.specs.List.{All};
ghost use Rattle.ar_firing.specs.Forest.{ModeTree};
ghost use Rattle.ar_firing.specs.Listed.{AreListed};
ghost use Rattle.zdd_nodes.specs.Families.{minimal};
ghost use Rattle.zdd_nodes.specs.Sections.{IsCounted};
ghost use Rattle.zdd_nodes.specs.Nodes.{family, IsFamilyNumber, IsSoundStore, Draws};
ghost use Rattle.eq_core.specs.Ordered.{AreOrdered, IsOrderedTable};
ghost use Rattle.eq_core.specs.ValuesInside.{IsBelow};
ghost use Rattle.eq_core.specs.Views.{gate_of, operand_of, table_of};
ghost use Rattle.firable_families.specs.FirableInside.{IsFirableUpTo};
ghost use Rattle.gate_diagrams.specs.Needed.{family_at, IsNeeded};
ghost use Rattle.gate_diagrams.specs.NodeLimits.{NodesMayUpTo};
ghost use Rattle.gate_diagrams.specs.Answers.{IsAnswerUpTo, AreNeeded, store_of};

use crate::draw::draw;
use eq_core::{Equations, Gate, Operand};
use std::alloc::Global;
use zdd_nodes::{NodeFault, NodeId, Store};
use zdd_ops::Ops;

/// A family of sets of events: a store, and the number of the family in it.
#[derive(Drop)]
pub struct Family {
    /// The store.
    pub store: Store,
    /// The number: 0, 1 or that of a node of the store.
    pub root: NodeId,
}

/// The least sets with a conflict, or, where there are none, those that make the value.
#[derive(Drop)]
pub enum Drawn {
    /// The least firable sets at which the conflict operand is true; there are some.
    Conflicts(Family),
    /// The least firable sets at which the top operand is true.
    Cuts(Family),
}

/// Of the firable sets that are given the least at which the conflict operand is true, or, where there are none, those at
/// which the top operand is. The store has the nodes of the firable sets alone.
pub(crate) fn answer(
    alloc: Global,
    mut ops: Ops,
    equations: &Equations,
    firable: NodeId,
) -> Result<Drawn, NodeFault>
    requires sound { IsSoundStore ops }
    requires firable_in { IsFamilyNumber ops firable.n }
    requires stored { All (IsCounted (family ops firable.n)) ops.families }
    requires table { IsOrderedTable (table_of equations.now) }
    ensures sets { (order : Option ℕ) (trees : List ModeTree)
        → AreListed (IsFirableUpTo order trees) (family ops firable.n)
        → IfOk result (λ d. IsAnswerUpTo order trees (table_of equations.now) d) }
    ensures needed { IfOk result (λ d.
        AreNeeded (family ops firable.n) (table_of equations.now) d) }
    ensures within { IfOk result (λ d. length (store_of d).families ≤ ops.limit) }
    ensures full { (order : Option ℕ) (trees : List ModeTree)
        → AreListed (IsFirableUpTo order trees) (family ops firable.n)
        → result ≡ Err NodeFault.Full
        → NodesMayUpTo order trees (table_of equations.now) ops.limit }
{
    let conflict = least(
        alloc,
        &mut ops,
        &equations.gates,
        firable,
        equations.conflict,
    )?;
    if conflict.n != 0 {
        return Ok(Drawn::Conflicts(Family {
            store: ops.into_store(),
            root: conflict,
        }));
    }
    let top = least(alloc, &mut ops, &equations.gates, firable, equations.top)?;
    Ok(Drawn::Cuts(Family {
        store: ops.into_store(),
        root: top,
    }))
}

// The minimal sets of an operand's family.
fn least(
    alloc: Global,
    ops: &mut Ops,
    gates: &[Gate],
    firable: NodeId,
    root: Operand,
) -> Result<NodeId, NodeFault>
    requires sound { IsSoundStore ops.old }
    requires firable_in { IsFamilyNumber ops.old firable.n }
    requires ordered { AreOrdered (map gate_of gates.now) }
    requires root_in { IsBelow (length gates.now) (operand_of root) }
    ensures drawn { Draws (IsNeeded (family ops.old firable.n) (map gate_of gates.now)
        (operand_of root))
        (minimal (family_at (family ops.old firable.n) (map gate_of gates.now) (operand_of root)))
        ops.old ops.new result }
    ensures sound { OnOk result (IsSoundStore ops.new) }
{
    let drawn = draw(alloc, ops, gates, firable, root)?;
    ops.minimal(drawn)
}
