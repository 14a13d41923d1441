//! The stages of a job, from its words to what stands ready to be told, and what tells of it: statuses, refusals with
//! their lines, and the texts of cuts.
//!
//! A stage answers what it makes, or a `Stop`: the first refusal, or want of memory. The job of the words, the texts of
//! its files, the flat system, what the words and the script ask of it, its trees of modes, its gate table and the
//! diagrams come in this order. A command's text is put together from there.
#![tactic(auto)]

mod analysing;
mod cutting;
mod elaborating;
mod jobs;
mod loading;
mod refusals;
mod requesting;
mod spots;
mod status;
mod stops;
mod tabling;
mod telling;

pub use analysing::forest_of;
pub use cutting::{draw, write_conflict, write_cuts, write_nodes};
pub use elaborating::{Flattened, elaborate};
pub use jobs::asked_of;
pub use loading::{Texts, job_texts};
pub use refusals::{FileKind, Refusal};
pub use requesting::{Request, chains_of, commands_of, dropped_of, request_of, shown_of};
pub use status::Status;
pub use stops::Stop;
pub use tabling::{GateTable, table_of};
pub use telling::{explained, printed, refuse, replayed, write_counts, written};
