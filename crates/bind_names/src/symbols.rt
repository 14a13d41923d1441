//! The texts of symbols.

ghost use Rattle.std.specs.Prelude.{◌≡◌, List, map, IfOk};
ghost use Rattle.hierarchy.specs.Models.{RootedModel};
ghost use Rattle.hierarchy.specs.Paths.{name_text};
ghost use Rattle.hierarchy.specs.Tie.{IsTreeOf};
ghost use Rattle.hierarchy.specs.Units.{UnitPath};

use crate::paths::text_of;
use ar_base::{Memory, Text};
use hierarchy::Tree;
use std::alloc::Global;

/// The texts of the model's symbols, in their order. The error is want of memory.
pub fn symbol_texts(alloc: Global, tree: &Tree) -> Result<Vec<Text>, Memory>
    ensures { (m : RootedModel) (units : List UnitPath) → IsTreeOf m units tree.now
        → IfOk result (λ v. v.items ≡ map (name_text m) m.declared.symbols) }
{
    let mut texts = Vec::new(alloc);
    for symbol in &tree.classes.symbols {
        let text = String::from_str(alloc, text_of(&tree.classes.names, *symbol))?;
        texts.push(Text::new(text))?;
    }
    Ok(texts)
}
