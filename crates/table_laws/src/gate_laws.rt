//! What the table of a static system tells.

ghost use Rattle.table_laws.specs.GateLaws.{TableAgrees, TableShowsLeast, TableIsOrdered};

/// Laws of the gate table of a system.
///
/// - `agrees`, `least`: At each firable set of a lawful static system the table's conflict operand is true
///   exactly where the flows of the set's state are a fault, and where it is false the top operand is true
///   exactly where the observer has the wanted value. So the conflict sets are the least firable sets at which
///   the conflict operand is true, and where no set meets a conflict, the cuts are the least firable sets at
///   which the top operand is true.
/// - `ordered_table`: The gates of a table are in order, whatever the system: each is over at least two
///   operands, events or earlier gates.
pub fn gate_table_laws()
    ensures agrees { TableAgrees }
    ensures least { TableShowsLeast }
    ensures ordered_table { TableIsOrdered }
{}
