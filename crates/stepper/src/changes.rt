//! What a step changed.

use ar_base::WayId;
use flow_changes::Changes;

/// What a step changed: how it is taken back.
#[derive(Drop)]
pub(crate) struct StepChanges {
    /// The variables whose values or marks changed, with what they had before.
    pub flows: Changes,
    /// The ways of which the flags were turned.
    pub ways: Vec<WayId>,
}
