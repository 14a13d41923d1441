//! The words of the program read as a job, and the generator of example models.
#![tactic(auto)]

mod files;
mod generator;
mod jobs;
pub mod laws;
mod lines;
mod numbers;
mod reading;
mod shapes;
mod verbs;

pub use generator::make_text;
pub use jobs::{Asked, Job, JobFault};
pub use reading::{read_asked, read_job};
pub use shapes::{Form, Reach, Shape, Takes};
pub use verbs::Verb;
