//! What entries tell, and what building is like.

ghost use Rattle.eq_build.specs.Laws.{EntriesTell, HasOneBuilt, IsBuiltWhereTyped, OnlyAddsGates, KeepsOrder, NeverChangesNothing};

/// Laws of gates that are built.
///
/// - `entries_tell`: At each set of events, the entries of a well-typed expression tell of the values that it
///   yields from the facts of which the reading tells: an operand is true exactly where its value is yielded,
///   and each value that is yielded has one.
/// - `one_building`, `some_building`, `more_gates`, `gates_in_order`: From the same gates and under the same
///   reading an expression has one list of entries and of gates, a well-typed one has some, gates are only
///   added, and ordered gates stay in order.
/// - `terms_with_never`: A term with an operand that is true nowhere makes no gate and changes nothing: so a
///   value that is true nowhere needs no entry.
pub fn building_laws()
    ensures entries_tell { EntriesTell }
    ensures one_building { HasOneBuilt }
    ensures some_building { IsBuiltWhereTyped }
    ensures more_gates { OnlyAddsGates }
    ensures gates_in_order { KeepsOrder }
    ensures terms_with_never { NeverChangesNothing }
{}
