//! What follows from the definition of the text of a gate table.

ghost use Rattle.std.specs.Prelude.{◌≡◌, ℕ, List};
ghost use Rattle.ar_base.specs.Lists.{Stands};
ghost use Rattle.domains.specs.declared.Value.{Value};
ghost use Rattle.ar_meaning.specs.Systems.{System};
ghost use Rattle.ar_firing.specs.Forest.{IsForest, ModeTree};
ghost use Rattle.ar_firing.specs.Static.{IsKeyedStatic};
ghost use Rattle.eq_core.specs.Gates.{Table};
ghost use Rattle.gts_core.specs.Sound.{IsSound};
ghost use Rattle.gts_core.specs.View.{Views, net_of, numbered};
ghost use Rattle.gts_core.specs.declared.system.GtsParts.{GtsParts};
ghost use Rattle.gts_core.specs.declared.system.Observer.{Observer};
ghost use Rattle.gts_flatten.specs.Elaborating.{Elaborated};
ghost use Rattle.gts_flatten.specs.Flat.{IsFlat, naming_of, naming_of_parts};
ghost use Rattle.hierarchy.specs.Listing.{variables};
ghost use Rattle.mode_trees.specs.Views.{trees_of, number_in};
ghost use Rattle.mode_trees.specs.declared.forests.Forest.{Forest as TheForest};
ghost use Rattle.eq_build.specs.TableLaws.{HasTable};
ghost use Rattle.eq_build.specs.Table.{IsTable};
ghost use Rattle.aralia_text.specs.Texts.{equations_text};
ghost use Rattle.table_text.specs.Texts.{IsTableFor, IsTableText};

use eq_build::one_table;
use gts_core::laws::{lawful_systems, one_system};

/// The gate table of a flat system is that of its source, and has, as it is written, its text. Sound
/// parts have a table for each observer, each list of trees and each value.
pub fn tables_of_the_source()
    ensures table { (x : Elaborated) (p : GtsParts) (flat : System ℕ) → IsFlat x p → Views p flat
        → (dropped : List ℕ) (f : TheForest) → IsForest flat dropped (trees_of (number_in p) f)
        → (n : ℕ) (o : Observer) → Stands p.observers.items n o
        → (wanted : Value) (table : Table)
        → IsTable (net_of p) (trees_of (number_in p) f) (numbered o.value) wanted table
        → IsTableFor (variables x.declarations.model x.declarations.units) x.system dropped n
        wanted table }
    ensures text { (x : Elaborated) (p : GtsParts) → IsFlat x p
        → (dropped : List ℕ) (n : ℕ) (wanted : Value) (table : Table)
        → IsTableFor (variables x.declarations.model x.declarations.units) x.system dropped n
        wanted table
        → IsTableText (variables x.declarations.model x.declarations.units)
        (naming_of x.declarations) x.system dropped n wanted
        (equations_text (naming_of_parts p).events table) }
    ensures some { (p : GtsParts) → IsSound p
        → (n : ℕ) (o : Observer) → Stands p.observers.items n o
        → (trees : List ModeTree) (wanted : Value)
        → HasTable (net_of p) trees (numbered o.value) wanted }
{
    one_system();
    lawful_systems();
    one_table();
}

/// A static source has at most one table for an observer and a value.
pub fn one_table_of_the_source<V>()
    ensures { (things : List V) (sys : System V) (dropped : List ℕ) → IsKeyedStatic sys dropped
        → (n : ℕ) (wanted : Value) (one other : Table) → IsTableFor things sys dropped n wanted one
        → IsTableFor things sys dropped n wanted other → one ≡ other }
{}
