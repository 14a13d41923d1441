//! What the gate table of a static system, and what is drawn for it, tell of its firing orders.
//!
//! As many rounds as a block has flows make its facts known, and the conflicts that they show are the faults of the state.
//! The definitions stand in `specs/`; each function here has an empty body and states a law.
#![tactic(auto)]

mod drawn;
mod gate_laws;
mod round_laws;

pub use drawn::drawn_sets;
pub use gate_laws::gate_table_laws;
pub use round_laws::laws_of_rounds;
