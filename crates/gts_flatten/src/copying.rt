//! Copies of what a flat system takes over as it is.

ghost use Rattle.std.specs.Prelude.{◌≡◌, IfOk};
ghost use Rattle.ar_base.specs.Lists.{Along};
ghost use Rattle.gts_flatten.specs.Making.{IsSameVariable, IsSameObserver};

use ar_base::{Memory, Text};
use gts_core::{Observer, Variable, copy_domain, copy_expression};
use std::alloc::Global;

/// Copies of texts, in their order.
pub(crate) fn copy_texts(alloc: Global, texts: &[Text]) -> Result<Vec<Text>, Memory>
    ensures { IfOk result (λ v. v.items ≡ texts.now) }
{
    let mut copies = Vec::new(alloc);
    for text in texts {
        let copy = text.copy(alloc)?;
        copies.push(copy)?;
    }
    Ok(copies)
}

/// Copies of variables, in their order.
pub(crate) fn copy_variables(alloc: Global, variables: &[Variable]) -> Result<Vec<Variable>, Memory>
    ensures { IfOk result (λ v. Along IsSameVariable variables.now v.items) }
{
    let mut copies = Vec::new(alloc);
    for variable in variables {
        let path = variable.path.copy(alloc)?;
        let domain = copy_domain(&variable.domain)?;
        copies.push(Variable {
            path,
            unit: variable.unit,
            domain,
            is_state: variable.is_state,
            value: variable.value,
        })?;
    }
    Ok(copies)
}

/// Copies of observers, in their order.
pub(crate) fn copy_observers(alloc: Global, observers: &[Observer]) -> Result<Vec<Observer>, Memory>
    ensures { IfOk result (λ v. Along IsSameObserver observers.now v.items) }
{
    let mut copies = Vec::new(alloc);
    for observer in observers {
        let path = observer.path.copy(alloc)?;
        let value = copy_expression(alloc, &observer.value)?;
        copies.push(Observer {
            path,
            kind: observer.kind,
            value,
        })?;
    }
    Ok(copies)
}
