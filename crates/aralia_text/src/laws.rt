//! What follows from the definitions of the text of a table.

ghost use Rattle.std.specs.Prelude.{◌≡◌, ℕ, List};
ghost use Rattle.eq_core.specs.Gates.{Table};
ghost use Rattle.eq_core.specs.Ordered.{IsOrderedTable};
ghost use Rattle.aralia_text.specs.Texts.{equations_text};
ghost use Rattle.aralia_text.specs.Readings.{ArePaths, NamesTextedEvents, IsTextOf, IsFirstWrong};

/// Laws of the reading of a gate table.
///
/// - `printed_is_read`: Where the texts of the events are of letters, digits, `_` and `.`, what is written for
///   a table is a text of that table: so `read` gives that table for it.
/// - `first_wrong_is_one`: A text goes wrong first at one place: so the place that `read` tells is the only
///   one.
pub fn reading_laws()
    ensures printed_is_read { (events : List (List ℕ)) (table : Table) → ArePaths events → IsOrderedTable table
        → NamesTextedEvents events table
        → IsTextOf events (equations_text events table) table }
    ensures first_wrong_is_one { (events : List (List ℕ)) (text : List ℕ) (k m : ℕ) → IsFirstWrong events text k
        → IsFirstWrong events text m → k ≡ m }
{}
