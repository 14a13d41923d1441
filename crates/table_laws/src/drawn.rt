//! What is drawn for a system's gate table, in the words of its firing orders.
//!
//! The definitions stand in `specs/`. The function here has an empty body and states laws of them.

ghost use Rattle.std.specs.Prelude.{ℕ, Option};
ghost use Rattle.table_laws.specs.DrawnLaws.{DrawnAreMeant, DrawnAreMeantUpTo, DrawnAreFirable, DrawnAreFirableUpTo, DrawnAreStored, DrawnAreStoredUpTo, NodesByNumbers, NodesByNumbersUpTo};

/// What is drawn for the table of a static system are its conflict sets, where it has some, or else the cuts of the
/// observer's value; each drawn set is firable, and what is drawn has a number of its store. Which nodes may be needed does
/// not rest on the numbers of ways. The clauses `_up_to` say the same of the sets of at most so many events.
pub fn drawn_sets()
    ensures meant { DrawnAreMeant }
    ensures firable { DrawnAreFirable }
    ensures stored { DrawnAreStored }
    ensures nodes { NodesByNumbers }
    ensures meant_up_to { (order : Option ℕ) → DrawnAreMeantUpTo order }
    ensures firable_up_to { (order : Option ℕ) → DrawnAreFirableUpTo order }
    ensures stored_up_to { (order : Option ℕ) → DrawnAreStoredUpTo order }
    ensures nodes_up_to { (order : Option ℕ) → NodesByNumbersUpTo order }
{}
