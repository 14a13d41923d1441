//! The program's one call: the job of the words, over a shelf of files and a sink for the text; and the exit status of it.
//!
//! `program` does a job: the words, the files, and then the command. `commands` has the way of each
//! command from there, stage by stage, and last its text.
#![tactic(auto)]

mod checking;
mod commands;
mod explaining;
pub mod findings;
pub mod following;
pub mod laws;
mod making;
pub mod nodes;
mod program;
mod shortening;

pub use job_stages::Status;
pub use program::{altarica, exit};
