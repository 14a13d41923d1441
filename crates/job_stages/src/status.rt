//! How a job ends.

ghost use Rattle.std.specs.Prelude.{◌≡◌};
ghost use Rattle.job_stages.specs.Numbers.{number_of};

/// How a job ends. The program's exit status is its number.
#[derive(Clone, Copy)]
pub enum Status {
    /// All of the text was written.
    Done,
    /// The words are no job.
    Usage,
    /// The model's text has no reading by the grammar.
    Syntax,
    /// The model breaks a rule.
    Rule,
    /// The model is not static.
    Outside,
    /// The run, or a conflict of the model, meets a fault.
    Fault,
    /// The diagrams need more nodes than the limit.
    Nodes,
    /// A file was not read.
    Read,
    /// The output was not written.
    Write,
    /// Memory was refused.
    Memory,
    /// A count passes its limit.
    Size,
    /// The script, or a word that names a thing of the model, is wrong.
    Script,
}

impl Status {
    /// The exit status, from 0 to 11.
    pub fn number(self) -> u8
        ensures { result ≡ number_of self }
    {
        match self {
            Status::Done => 0,
            Status::Usage => 1,
            Status::Syntax => 2,
            Status::Rule => 3,
            Status::Outside => 4,
            Status::Fault => 5,
            Status::Nodes => 6,
            Status::Read => 7,
            Status::Write => 8,
            Status::Memory => 9,
            Status::Size => 10,
            Status::Script => 11,
        }
    }
}
