//! The job of the words.

ghost use Rattle.std.specs.Prelude.{◌≡◌, option_map};
ghost use Rattle.ar_base.specs.TextsInside.{bytes_of_all};
ghost use Rattle.job_stages.specs.Jobs.{makes_model};
ghost use Rattle.job_stages.specs.JobsInside.{AnswersJob};

use crate::stops::Stop;
use ar_base::Text;
use run_words::{Asked, Verb, read_asked};
use std::alloc::Global;

/// Whether a command makes its model; those of the others are files.
pub fn makes_model(command: Verb) -> bool
    ensures { result ≡ makes_model command }
{
    command.shape().files.is_made()
}

/// The job of the words behind the program's name.
pub fn asked_of(alloc: Global, words: &[String]) -> Result<Asked, Stop>
    ensures { AnswersJob (bytes_of_all words.now) result }
{
    let asked = read_asked(alloc, words)?;
    Ok(asked)
}

/// The word of an option.
pub fn word_of(text: &Option<Text>) -> Option<&str>
    ensures { option_map (λ t. t.now) result ≡ text.now }
{
    match text {
        Some(text) => Some(text.as_str()),
        None => None,
    }
}
