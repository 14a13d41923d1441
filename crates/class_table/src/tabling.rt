//! The table of a model.

ghost use Rattle.std.specs.Prelude.{◌≡◌, ◌≤◌, ℕ, Vec, List, [], ◌∷◌, Option, length, option_map};
ghost use Rattle.std.specs.Global.{Global};
ghost use Rattle.ar_base.specs.Breach.{AreKept};
ghost use Rattle.ar_base.specs.Stages.{Keeps};
ghost use Rattle.ar_base.specs.StagesInside.{Meets};
ghost use Rattle.class_table.specs.Tabling.{Tabulates};
ghost use Rattle.std.specs.Prelude.{IfOk};
ghost use Rattle.class_table.specs.Declaring.{Declared as Declaration};
ghost use Rattle.class_table.specs.Testing.{TakesApart, AreAsDeclared};
ghost use Rattle.ar_syntax.specs.declared.items.Model.{Model as Tree};
ghost use Rattle.class_table.specs.Earliest.{IsEarliest};
ghost use Rattle.class_table.specs.Rules.{BreaksContainment, BreaksTextRule};
ghost use Rattle.class_table.specs.Rows.{AreInnerBodies};
ghost use Rattle.class_table.specs.Ordering.{IsBodyOrder};
ghost use Rattle.class_table.specs.Shown.{Shows, AreMembersListed};

use crate::containment::first_contained;
use crate::declaring::{Declared, declare};
use crate::inside::all_inside;
use crate::items::first_wrong_item;
use crate::main_block::main_block;
use crate::members::list_members;
use crate::misnaming::first_misnamed;
use crate::naming::first_named_twice;
use crate::order::put_in_order;
use crate::tables::{Body, Classes, TypeBody};
use crate::types::TypeKinds;
use ar_base::{Memory, NameId, Place, RuleFault, keep};
use ar_syntax::{Item, Model};
use std::alloc::Global;

/// The table of a model, whose main block is the top-level block of the name `main`, else the last one. Refused with
/// the least broken rule of L1 to L5, at the earliest place where it is broken; never for a limit.
pub fn table(alloc: Global, model: Model, main: Option<&str>) -> Result<Classes, RuleFault>
    ensures { Meets (Tabulates (option_map (λ t. t.now) main.entry)) (λ c answer. answer ≡ c) model
        result }
{
    let Model { names, items, end } = model;
    let mut declared = taken_apart(alloc, items)?;
    list_all(alloc, &mut declared.bodies, &declared.types)?;
    let Some(main) = main_block(&names, &declared.bodies, &declared.blocks, main) else {
        return Err(RuleFault::Rule(5, end));
    };
    Ok(Classes {
        names,
        bodies: declared.bodies,
        types: declared.types,
        symbols: declared.symbols,
        main,
    })
}

// The earliest type name in a body whose class has that body inside it. An order of all bodies shows that there is none.
fn first_inside_itself(
    alloc: Global,
    bodies: &[Body],
    types: &TypeKinds,
    order: &[u32],
) -> Result<Option<Place>, Memory>
    requires { length bodies.now ≤ 16777216 }
    ensures { (d : Declaration) (rows : List (Vec ℕ Global)) → Shows d bodies.now types.now
        → AreInnerBodies d rows → IsBodyOrder rows order.now
        → IfOk result (IsEarliest (BreaksContainment d)) }
{
    if order.len() >= bodies.len() {
        return Ok(None);
    }
    first_contained(alloc, bodies, types)
}

// The items taken apart, where rule L1 is kept.
fn taken_apart(alloc: Global, items: Vec<Item>) -> Result<Declared, RuleFault>
    ensures parts { Meets TakesApart (λ parts answer. answer ≡ parts) items.items result }
    ensures few { IfOk result (λ d. length d.bodies.items ≤ 16777216) }
{
    let wrong_item = first_wrong_item(alloc, &items)?;
    let declared = declare(alloc, items)?;
    keep(1, wrong_item)?;
    Ok(declared)
}

// Lists the members of the bodies, where rules L2 to L4 are kept.
fn list_all(
    alloc: Global,
    bodies: &mut [Body],
    types: &[(NameId, TypeBody)],
) -> Result<(), RuleFault>
    requires few { length bodies.old ≤ 16777216 }
    requires declared { (model : Tree) × (main : Option (List ℕ)) × (d : Declaration)
        × AreAsDeclared model d bodies.old types.now
        × AreKept (1 ∷ []) (BreaksTextRule model main d) }
    ensures { (model : Tree) (main : Option (List ℕ)) (d : Declaration)
        → AreAsDeclared model d bodies.old types.now
        → AreKept (1 ∷ []) (BreaksTextRule model main d)
        → Meets (Keeps (1 ∷ 2 ∷ 3 ∷ 4 ∷ []) (BreaksTextRule model main))
        (λ d _. AreMembersListed d bodies.new) d result }
{
    let kinds = TypeKinds::new(alloc, types)?;
    keep(2, first_misnamed(bodies, &kinds))?;
    let rows = all_inside(alloc, bodies, &kinds)?;
    let order = put_in_order(alloc, rows)?;
    keep(3, first_inside_itself(alloc, bodies, &kinds, &order)?)?;
    list_members(alloc, bodies, &kinds, &order)?;
    keep(4, first_named_twice(alloc, bodies, &kinds)?)
}
