//! Why an operand has no diagram.

use ar_base::Memory;
use mode_nodes::DiagramFault;
use std::alloc::AllocFailed;
use zdd_nodes::NodeFault;

/// Why an operand got no diagram, or a diagram no family.
#[derive(Clone, Copy)]
pub enum Undrawn {
    /// The diagrams have their limit of nodes, or the families that are made on the way; or no tree has the event.
    Beyond,
    /// Memory was refused.
    Memory,
}

impl From<DiagramFault> for Undrawn {
    ghost use Rattle.std.specs.Prelude.{◌≡◌};
    ghost use Rattle.mode_diagrams.specs.Lacking.{undrawn_of};

    ghost from_gives = { λ fault e. e ≡ undrawn_of fault };

    fn from(fault: DiagramFault) -> Self {
        match fault {
            DiagramFault::Full => Undrawn::Beyond,
            DiagramFault::Memory => Undrawn::Memory,
        }
    }
}

impl From<NodeFault> for Undrawn {
    fn from(fault: NodeFault) -> Self {
        match fault {
            NodeFault::Full => Undrawn::Beyond,
            NodeFault::Memory => Undrawn::Memory,
        }
    }
}

impl From<Memory> for Undrawn {
    ghost use Rattle.std.specs.Prelude.{◌≡◌};
    ghost use Rattle.mode_diagrams.specs.declared.undrawn.Undrawn.TheVariants as undrawn;

    ghost from_gives = { λ _ e. e ≡ undrawn.Memory };

    fn from(_memory: Memory) -> Self {
        Undrawn::Memory
    }
}

impl<T: Drop> From<AllocFailed<T>> for Undrawn {
    ghost use Rattle.std.specs.Prelude.{◌≡◌};
    ghost use Rattle.mode_diagrams.specs.declared.undrawn.Undrawn.TheVariants as undrawn;

    ghost from_gives = { λ _ e. e ≡ undrawn.Memory };

    fn from(_failed: AllocFailed<T>) -> Self {
        Undrawn::Memory
    }
}
