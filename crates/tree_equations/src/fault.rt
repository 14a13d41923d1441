//! Why there is no table.

ghost use Rattle.std.specs.Prelude.{◌≡◌};
ghost use Rattle.tree_equations.specs.Faults.{building_fault};

use eq_build::BuildFault;

/// Why there is no table.
#[derive(Clone, Copy)]
pub enum EqFault {
    /// The table has more gates than a table may have.
    Gates,
    /// Memory was refused.
    Memory,
}

impl From<BuildFault> for EqFault {
    ghost from_gives = { λ b e. e ≡ building_fault b };

    fn from(fault: BuildFault) -> Self {
        match fault {
            BuildFault::Gates => EqFault::Gates,
            BuildFault::Memory => EqFault::Memory,
        }
    }
}
