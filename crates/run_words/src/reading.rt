//! The words read as a job.

ghost use Rattle.std.specs.Prelude.{◌≡◌, ◌↔◌, ℕ, Option, map, option_map, IfOk, IfErr, IsTrue, MatchOption, Some};
ghost use Rattle.ar_base.specs.TextsInside.{bytes_of_all};
ghost use Rattle.run_words.specs.declared.jobs.Asked.{Asked as AskedOfWords};
ghost use Rattle.run_words.specs.declared.jobs.Job.{Job as Jobs};
ghost use Rattle.run_words.specs.declared.jobs.JobFault.TheVariants.{Usage, Memory as OutOfMemory};
ghost use Rattle.run_words.specs.Jobs.{IsJobOf, IsAsked, IsAskedOf, IsTaken, IsUsed, IsNodes, IsOrder, given_words};
ghost use Rattle.run_words.specs.JobsInside.{IsJob};
ghost use Rattle.run_words.specs.Told.{told};

use crate::files::{named_files, text};
use crate::jobs::{Asked, Job, JobFault};
use crate::lines::{CommandLine, command_line, matches};
use crate::numbers::number;
use crate::shapes::{Form, Shape, Takes};
use crate::verbs::named as named_verb;
use ar_base::{MOST_NODES, Text, USUAL_NODES};
use std::alloc::Global;

// The most events that `--max-order` may ask for.
const MOST_ORDER: u32 = 1000;

/// Reads the words behind the program's name as a job, which they are where `--max-order` is not used.
///
/// # Errors
/// `Usage` exactly where the words give no job; `Memory` where memory was refused.
pub fn read_job(alloc: Global, words: &[String]) -> Result<Job, JobFault>
    ensures found { IfOk result (λ job. IsJob (bytes_of_all words.now) job) }
    ensures usage { result ≡ Err Usage → (job : Jobs) → IsJob (bytes_of_all words.now) job → ⊥ }
{
    let asked = read_asked(alloc, words)?;
    match asked.order {
        None => Ok(asked.job),
        Some(_) => Err(JobFault::Usage),
    }
}

/// Reads what the words behind the program's name ask for.
///
/// `clap` takes the words apart as one command with the positionals `command` and `file` (any number) and the
/// options `--main`, `--observer`, `--value`, `--nodes`, `--drop` and `--max-order`, each with one value, in any order.
/// Then the command must be one of the ten, with the files and the options that it takes.
///
/// # Errors
/// `Usage` exactly where the words ask for nothing; `Memory` where memory was refused.
pub fn read_asked(alloc: Global, words: &[String]) -> Result<Asked, JobFault>
    ensures found { IfOk result (λ asked. IsAsked (bytes_of_all words.now) asked) }
    ensures usage { result ≡ Err Usage
        → (asked : AskedOfWords) → IsAsked (bytes_of_all words.now) asked → ⊥ }
{
    let given = with_program(alloc, words)?;
    let found = matches(alloc, given.as_slice())?;
    let line = command_line(&found);
    let asked = asked_of(alloc, &line)?;
    Ok(asked)
}

// The program's word and then the words.
fn with_program<'a>(alloc: Global, words: &'a [String]) -> Result<Vec<&'a str>, JobFault>
    ensures given { IfOk result (λ given.
        map (λ w. w.now) given.items ≡ given_words (bytes_of_all words.now)) }
    ensures memory { IfErr result (λ e. e ≡ OutOfMemory) }
{
    let mut given: Vec<&'a str> = Vec::new(alloc);
    given.push("altarica")?;
    for word in words {
        given.push(word.as_str())?;
    }
    Ok(given)
}

// What a command line asks for.
fn asked_of(alloc: Global, line: &CommandLine<'_, '_>) -> Result<Asked, JobFault>
    ensures found { IfOk result (λ asked. IsAskedOf (told line.now) asked) }
    ensures usage { result ≡ Err Usage → (asked : AskedOfWords) → IsAskedOf (told line.now) asked → ⊥ }
{
    let job = job_of(alloc, line)?;
    let order = order_of(job.command.shape(), line.order)?;
    Ok(Asked { job, order })
}

// The job that a command line gives, `--max-order` left aside.
fn job_of(alloc: Global, line: &CommandLine<'_, '_>) -> Result<Job, JobFault>
    ensures found { IfOk result (λ job. IsJobOf (told line.now) job) }
    ensures usage { result ≡ Err Usage → (job : Jobs) → IsJobOf (told line.now) job → ⊥ }
{
    let Some(word) = line.command else {
        return Err(JobFault::Usage);
    };
    let Some(command) = named_verb(word) else {
        return Err(JobFault::Usage);
    };
    let shape = command.shape();
    // Each option that is used is taken, but for `--nodes`, and each that is needed is used.
    let fit = is_taken(shape.main, line.main)
        && is_used(shape.observer, line.observer)
        && is_taken(shape.value, line.value)
        && is_taken(shape.dropped, line.dropped);
    if !fit {
        return Err(JobFault::Usage);
    }
    let Some(nodes) = nodes_of(shape, line.nodes) else {
        return Err(JobFault::Usage);
    };
    let named = named_files(alloc, shape.files, line.files)?;
    Ok(Job {
        command,
        model: named.model,
        script: named.script,
        main: given(alloc, line.main)?,
        observer: given(alloc, line.observer)?,
        value: given(alloc, line.value)?,
        dropped: given(alloc, line.dropped)?,
        nodes,
        number: named.number,
    })
}

// Whether an option is used only where it is taken.
fn is_taken(takes: bool, given: Option<&str>) -> bool
    ensures { IsTrue result ↔ IsTaken takes (option_map (λ s. s.now) given.entry) }
{
    takes || given.is_none()
}

// Whether an option is used only where it is taken, and also where it is needed.
fn is_used(takes: Takes, given: Option<&str>) -> bool
    ensures { IsTrue result ↔ IsUsed takes (option_map (λ s. s.now) given.entry) }
{
    match takes {
        Takes::Never => given.is_none(),
        Takes::May => true,
        Takes::Must => given.is_some(),
    }
}

// The node limit.
fn nodes_of(shape: Shape, given: Option<&str>) -> Option<u32>
    ensures { MatchOption result ((n : ℕ) → IsNodes shape (option_map (λ s. s.now) given.entry) n
        → ⊥) (λ n. IsNodes shape (option_map (λ s. s.now) given.entry) n) }
{
    match given {
        None if matches!(shape.files, Form::Number) => Some(MOST_NODES),
        None => Some(USUAL_NODES),
        Some(word) if shape.nodes => number(word, 1, MOST_NODES),
        Some(_) => None,
    }
}

// The most events of a cut, where a number is given.
fn order_of(shape: Shape, given: Option<&str>) -> Result<Option<u32>, JobFault>
    ensures found { IfOk result (λ order. IsOrder shape (option_map (λ s. s.now) given.entry) order) }
    ensures usage { IfErr result (λ e. e ≡ Usage) }
    ensures none { result ≡ Err Usage
        → (order : Option ℕ) → IsOrder shape (option_map (λ s. s.now) given.entry) order → ⊥ }
{
    let Some(word) = given else {
        return Ok(None);
    };
    if !shape.order {
        return Err(JobFault::Usage);
    }
    match number(word, 1, MOST_ORDER) {
        Some(order) => Ok(Some(order)),
        None => Err(JobFault::Usage),
    }
}

// The text of a word that may be absent.
fn given(alloc: Global, word: Option<&str>) -> Result<Option<Text>, JobFault>
    ensures given { IfOk result (λ t. t ≡ option_map (λ s. s.now) word.entry) }
    ensures memory { IfErr result (λ e. e ≡ OutOfMemory) }
{
    match word {
        Some(word) => {
            let text = text(alloc, word)?;
            Ok(Some(text))
        }
        None => Ok(None),
    }
}
