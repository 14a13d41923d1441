//! What paths stand for, where the values of parameters are known.

ghost use Rattle.bind_names.specs.Leaves.{leaf_in, IsUnitInTree};

use ar_base::UnitId;
use ar_syntax::Path;
use bind_scopes::{Named, Scopes};
use domains::Value;
use gts_core::value_at;
use written_forms::{Leaf, Leaves};

/// What paths stand for in the expressions of a unit: variables by their numbers, and the values of
/// parameters and symbols.
#[derive(Clone, Copy)]
pub struct UnitLeaves<'a, 't> {
    /// What paths name in the tree.
    pub scopes: &'a Scopes<'t>,
    /// The unit.
    pub unit: UnitId,
    /// The values of parameters, in the tree's order.
    pub parameters: &'a [Value],
}

impl<'a, 't> Leaves for UnitLeaves<'a, 't> {
    ghost is_sound = { λ s. IsUnitInTree s };

    ghost leaf_at = { λ s p. leaf_in s p };

    fn leaf(&self, path: &Path) -> Leaf {
        match self.scopes.named(self.unit, path) {
            None => Leaf::Constant(Value::Truth(false)),
            Some(Named::Variable(variable)) => Leaf::Variable(variable),
            Some(Named::Parameter(place)) => Leaf::Constant(value_at(
                self.parameters,
                place as usize,
            )),
            Some(Named::Symbol(symbol)) => Leaf::Constant(Value::Symbol(symbol)),
        }
    }
}
