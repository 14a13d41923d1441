//! What a system of variables, assertions and events means: the facts and flows of a state, what a
//! way does, steps and runs.
//!
//! The definitions stand in `specs/`, generic in what stands for a variable, so that a source with
//! its paths and a flat system with its numbers have one meaning. Each function here has an empty
//! body and states a law of them.
#![tactic(auto)]

pub mod answers;
pub mod cases;
pub mod facts;
pub mod images;
