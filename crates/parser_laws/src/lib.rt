//! A text of the language has one meaning: it has at most one source tree.
//!
//! The definitions in `specs/` say when two trees agree; each function here has an empty body and states a law.
#![tactic(auto)]

pub mod readings;
