//! Lists and boxes, refused where memory is refused.

ghost use Rattle.std.specs.Prelude.{◌≡◌, ◌++◌, ◌∷◌, [], IfOk, IfErr};
ghost use Rattle.expression_grammar.specs.declared.lexeme.Refusal.TheVariants.{Memory};

use crate::lexeme::Refusal;
use std::alloc::Global;

/// Puts an item behind those of a list. `Memory` where memory is refused.
pub fn put<T: Drop>(items: &mut Vec<T>, item: T) -> Result<(), Refusal>
    ensures items { IfOk result (λ _. items.new.items ≡ items.old.items ++ (item ∷ [])) }
    ensures err { IfErr result (λ e. e ≡ Memory) }
{
    items.push(item)?;
    Ok(())
}

/// A list of one item. `Memory` where memory is refused.
pub fn list_of<T: Drop>(alloc: Global, item: T) -> Result<Vec<T>, Refusal>
    ensures items { IfOk result (λ items. items.items ≡ item ∷ []) }
    ensures err { IfErr result (λ e. e ≡ Memory) }
{
    let mut items = Vec::new(alloc);
    items.push(item)?;
    Ok(items)
}

/// A box of an item. `Memory` where memory is refused.
pub fn in_box<T: Drop>(alloc: Global, item: T) -> Result<Box<T>, Refusal>
    ensures ok { IfOk result (λ boxed. boxed.value ≡ item) }
    ensures err { IfErr result (λ e. e ≡ Memory) }
{
    let boxed = Box::new(alloc, item)?;
    Ok(boxed)
}
