//! That an answer exists: it is not so that a stage answers nothing. The logic of the proofs is not the
//! classical one, and several refusals are by definition refutations (that no way of reading goes on, that no
//! name is found), so this negative form is what can be said of any text. A call may still end with want of
//! memory; where that comes from no clause says.
//!
//! Each function here has an empty body and states a law.
#![tactic(auto)]

pub mod jobs;
pub mod sources;
