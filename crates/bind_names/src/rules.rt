//! The rules of names, kinds, values and targets, over a whole tree.

ghost use Rattle.std.specs.Prelude.{List};
ghost use Rattle.hierarchy.specs.Models.{RootedModel};
ghost use Rattle.hierarchy.specs.Units.{UnitPath};
ghost use Rattle.bind_scopes.specs.Scopes.{AreScopes, HasScopes};
ghost use Rattle.bind_names.specs.Whole.{AnswersRules};

use crate::all_values::{Values, valued};
use crate::written_rules::{first_misnamed_in, first_misplaced_in, first_mistyped_in};
use ar_base::{RuleFault, keep};
use bind_scopes::Scopes;
use std::alloc::Global;

/// The values of a tree that keeps the rules L10 to L13. The least of them that is broken is told,
/// at the earliest place where it is. Want of memory may be told in place of any answer, and no
/// limit is.
pub(crate) fn settled(alloc: Global, scopes: &Scopes<'_>) -> Result<Values, RuleFault>
    requires { HasScopes scopes.now }
    ensures { (m : RootedModel) (units : List UnitPath) → AreScopes m units scopes.now
        → AnswersRules m units scopes.now result }
{
    keep(10, first_misnamed_in(scopes))?;
    keep(11, first_mistyped_in(scopes))?;
    let values = match valued(alloc, scopes)? {
        Ok(values) => values,
        Err(place) => return Err(RuleFault::Rule(12, place)),
    };
    keep(13, first_misplaced_in(scopes))?;
    Ok(values)
}
