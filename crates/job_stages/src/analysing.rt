//! What the analyses of a system stand on: the trees of modes.

ghost use Rattle.std.specs.Prelude.{◌≡◌, map};
ghost use Rattle.ar_base.specs.NumbersInside.{EventId as EventNumber};
ghost use Rattle.job_inputs.specs.NamingInside.{AreEventsOf};
ghost use Rattle.gts_flatten.specs.Flat.{IsFlat};
ghost use Rattle.job_stages.specs.Passing.{IsStageOf, HasForest};
ghost use Rattle.job_stages.specs.Stages.{Ready, Static};

use crate::refusals::Refusal;
use crate::spots::path_of;
use crate::stops::Stop;
use ar_base::EventId;
use cut_text::forest_laws::forests_of_the_source;
use gts_core::Gts;
use mode_trees::Forest;
use static_fragment::{FragmentFault, recognise_up_to};
use std::alloc::Global;

/// The trees of modes of the system without the dropped events, or the rule of the static fragment that
/// it breaks. Where the cuts of at most so many events are asked for, any number of events may have a live edge.
pub fn forest_of(
    alloc: Global,
    system: &Gts,
    dropped: &[EventId],
    order: Option<u32>,
) -> Result<Forest, Stop>
    requires { AreEventsOf system.now dropped.now }
    ensures { (w : Ready) → IsFlat w.source system.now
        → w.dropped ≡ map (λ (e : EventNumber). e.n) dropped.now → w.order ≡ order
        → IsStageOf (HasForest system.now) (Static w) result }
{
    match recognise_up_to(alloc, system, dropped, order) {
        Ok(forest) => {
            // A forest has no more edges than the system has events.
            forests_of_the_source();
            Ok(forest)
        }
        Err(FragmentFault::Outside(rule, spot)) => {
            let path = path_of(alloc, system.parts(), spot)?;
            Err(Stop::Refused(Refusal::Outside(rule, path)))
        }
        Err(FragmentFault::Memory) => Err(Stop::Memory),
    }
}
