//! The gate table of a static system, step by step.
//!
//! The definitions stand in `specs/`: `Table` has the steps of the table in their order, `Steps` what each of them makes.

ghost use Rattle.eq_build.specs.TableLaws.{OneTable, SomeTable};

/// For a lawful system, any trees of modes, a typed observer and any wanted value there is a table, and there is one alone:
/// whatever list of the uses of flows the blocks are told from, the blocks, and so the gates, are the same.
pub fn one_table()
    ensures some { SomeTable }
    ensures one { OneTable }
{}
