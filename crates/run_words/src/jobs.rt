//! Jobs, and why words give none.

ghost use Rattle.std.specs.Prelude.{◌≡◌};
ghost use Rattle.run_words.specs.declared.jobs.JobFault.TheVariants.{Memory as OutOfMemory};

use crate::verbs::Verb;
use ar_base::Text;
use std::alloc::{AllocError, AllocFailed};

/// What the program is to do.
#[derive(Drop)]
pub struct Job {
    /// The command.
    pub command: Verb,
    /// The name of the model's file; empty for `make`, which has none.
    pub model: Text,
    /// The name of the script's file, or for `checkcuts` of the list's.
    pub script: Option<Text>,
    /// The name of the main block, where `--main` gives one.
    pub main: Option<Text>,
    /// The path of the observer, where `--observer` gives one.
    pub observer: Option<Text>,
    /// The wanted value as text, where `--value` gives one.
    pub value: Option<Text>,
    /// The paths of the dropped events, joined by commas, where `--drop` gives them.
    pub dropped: Option<Text>,
    /// How many nodes a diagram may have, from 1 to 16,777,216: what `--nodes` says, or else
    /// 1,000,000; for `make` 16,777,216.
    pub nodes: u32,
    /// How many components the model of `make` has, from 1 to 200; 0 for the other commands.
    pub number: u32,
}

/// What the words ask for: a job, and of how many events the cuts are at most that it is about.
#[derive(Drop)]
pub struct Asked {
    /// The job.
    pub job: Job,
    /// The most events of a cut, from 1 to 1,000, where `--max-order` gives a number; without it the job is about all cuts.
    pub order: Option<u32>,
}

/// Why words give no job.
#[derive(Clone, Copy)]
pub enum JobFault {
    /// The words are no job.
    Usage,
    /// Memory was refused.
    Memory,
}

impl From<AllocError> for JobFault {
    ghost from_gives = { λ _ e. e ≡ OutOfMemory };

    fn from(_error: AllocError) -> Self {
        JobFault::Memory
    }
}

impl<T: Drop> From<AllocFailed<T>> for JobFault {
    ghost from_gives = { λ _ e. e ≡ OutOfMemory };

    fn from(_failed: AllocFailed<T>) -> Self {
        JobFault::Memory
    }
}
