//! The flows that a state of a flat system determines.
#![tactic(auto)]

mod closing;
mod dependence;
mod determined;
mod fact_rows;
mod facts;
mod flows;
mod naming;
mod pairs;
mod plan;
mod propagation;
mod readers;
mod schedule;
mod searches;
mod table;
mod totals;
mod worklist;

pub use determined::{Determined, determine};
pub use flows::{propagate, propagate_by};
pub use naming::add_named_pairs;
pub use pairs::{Runs, pairs_of};
pub use plan::{Plan, make_plan};
pub use propagation::{FlowFault, PropagateFault};
pub use searches::some_outside;
