//! The gate table, for the observer and the value that a job asks for.

ghost use Rattle.std.specs.Prelude.{◌≡◌, ◌<◌, ◌≤◌, Some, length};
ghost use Rattle.gts_flatten.specs.Flat.{IsFlat};
ghost use Rattle.job_stages.specs.Passing.{IsStageOf, HasForest, IsGateTable};
ghost use Rattle.ar_base.specs.Counts.{limit_of};
ghost use Rattle.ar_base.specs.declared.counts.Count.TheVariants.{Events};
ghost use Rattle.cut_text.specs.ForestPrinted.{edge_count};
ghost use Rattle.job_stages.specs.Stages.{Ready, Tabled};

use crate::stops::Stop;
use ar_base::Text;
use eq_core::Equations;
use gts_core::Gts;
use job_inputs::Wanted;
use mode_trees::Forest;
use std::alloc::Global;
use table_text::event_texts;
use table_text::laws::tables_of_the_source;
use tree_equations::equations;

/// The gate table of a system, and what its events are called.
#[derive(Drop)]
pub struct GateTable {
    /// The gates, with the operands of the conflict and of the observer's value.
    pub equations: Equations,
    /// The canonical paths of the events.
    pub events: Vec<Text>,
}

/// The gate table of the system for an observer and its value, by the trees of its modes.
pub fn table_of(
    alloc: Global,
    system: &Gts,
    forest: &Forest,
    wanted: Wanted,
) -> Result<GateTable, Stop>
    requires observer { wanted.observer < length system.now.observers.items }
    requires forest { edge_count forest.now.trees.items ≤ limit_of Events }
    ensures { (w : Ready) → IsFlat w.source system.now → w.wanted ≡ Some wanted
        → HasForest system.now w forest.now
        → IsStageOf (IsGateTable system.now forest.now) (Tabled w) result }
{
    // The system has a table, and it is that of its source.
    tables_of_the_source();
    let parts = system.parts();
    let equations = equations(alloc, system, forest, wanted.observer, wanted.value)?;
    let events = event_texts(alloc, parts)?;
    Ok(GateTable { equations, events })
}
