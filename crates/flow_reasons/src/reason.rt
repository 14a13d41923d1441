//! Reasons.

use ar_base::{AssignId, VarId};
use domains::Value;

/// Why a flow has its value.
///
/// The facts of a state come in rounds: after none what the state gives, and after each further one what the assertions add
/// from what stood before. A flow without a fact has its reset, in round 0, by no assignment and resting on nothing.
#[derive(Drop)]
pub struct Reason {
    /// The flow.
    pub flow: VarId,
    /// Its value.
    pub value: Value,
    /// The first round after which the value stands, counted from 1.
    pub round: u32,
    /// The least assignment that adds the value from what stood before this round.
    pub by: Option<AssignId>,
    /// The variables that this assignment names in its value or in a condition and that had a fact before this round, by
    /// number, each once.
    pub rests_on: Vec<VarId>,
}
