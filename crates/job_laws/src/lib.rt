//! What a job asks of a source, and what it says of it, is at most one thing: for words, flat systems and whole answers.
//!
//! The definitions in `specs/` say what this needs of a source; each function here has an empty body, or calls other laws,
//! and states a law.
#![tactic(auto)]

pub mod alike_laws;
pub mod answer_laws;
pub mod causes;
pub mod flat_laws;
pub mod one_answer;
pub mod order_laws;
pub mod ready_jobs;
pub mod real_runs;
pub mod told;
pub mod word_laws;
