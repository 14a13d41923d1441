//! The kinds and sorts of what paths name in a unit.

ghost use Rattle.std.specs.Prelude.{◌<◌};
ghost use Rattle.bind_scopes.specs.Naming.{kind_in, sort_in, IsInTree};

use crate::kinds::kind_of_domain;
use crate::scopes::{Named, Scope, Scopes};
use crate::sites::is_flow_at;
use ar_base::UnitId;
use ar_syntax::Path;
use typed_expr::ValueKind;
use written_forms::{Naming, Targets};

/// Which variables are told from the others.
#[derive(Clone, Copy)]
pub enum Sort {
    /// State variables, from those that are none.
    States,
    /// Variables that are no flows, from flows.
    Flows,
}

/// What paths name in expressions and instructions of a unit.
#[derive(Clone, Copy)]
pub struct UnitNames<'a> {
    /// What paths name in the tree.
    pub scopes: &'a Scopes<'a>,
    /// The unit.
    pub unit: UnitId,
    /// What expressions may name.
    pub scope: Scope,
    /// Which variables are told from the others.
    pub sort: Sort,
}

impl<'a> Naming for UnitNames<'a> {
    ghost is_sound = { λ s. IsInTree s };

    ghost kind_at = { λ s p. kind_in s p };

    fn kind(&self, path: &Path) -> Option<ValueKind> {
        let tree = self.scopes.tree;
        match self.scopes.scoped(self.unit, self.scope, path)? {
            Named::Variable(variable) => {
                let node = tree.variables.get(variable.n as usize)?;
                Some(kind_of_domain(&node.domain))
            }
            Named::Parameter(place) => {
                let node = tree.parameters.get(place as usize)?;
                match &node.domain {
                    Some(domain) => Some(kind_of_domain(domain)),
                    None => Some(ValueKind::Whole),
                }
            }
            Named::Symbol(_) => Some(ValueKind::Symbol),
        }
    }
}

impl<'a> Targets for UnitNames<'a> {
    ghost target_at = { λ s p. sort_in s p };

    fn target(&self, path: &Path) -> Option<bool> {
        let tree = self.scopes.tree;
        let variable = self
            .scopes
            .index
            .var_at(tree, self.unit, path.start, &path.names)?;
        let node = tree.variables.get(variable.n as usize)?;
        match self.sort {
            Sort::States => Some(node.is_state),
            Sort::Flows => Some(!is_flow_at(&tree.classes, node.node.source)),
        }
    }
}
