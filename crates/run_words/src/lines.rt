//! The command line, as `clap` takes it apart.

ghost use Rattle.std.specs.Prelude.{◌≡◌, ◌≢◌, [], map, IfOk};
ghost use Rattle.clap.specs.Words.{app_of, fault_of, found_of, matches_of, rows_of, rule_of};
ghost use Rattle.run_words.specs.declared.jobs.JobFault.TheVariants.{Usage};
ghost use Rattle.run_words.specs.Lines.{program};
ghost use Rattle.run_words.specs.Lines.{command_words_of, option, rules};
ghost use Rattle.run_words.specs.Told.{told};

use crate::jobs::JobFault;
use clap::error::ErrorKind;
use clap::{Arg, ArgAction, ArgMatches, Command};
use std::alloc::{AllocError, Global};

// What `clap` finds in the words, of which the first is the program's.
pub(crate) fn matches<'a>(alloc: Global, words: &'a [&'a str]) -> Result<ArgMatches<'a>, JobFault>
    ensures taken { IfOk result (λ m. fault_of program (map (λ w. w.now) words.now) ≡ []) }
    ensures rows { IfOk result (λ m. rows_of (found_of m)
        ≡ matches_of program (map (λ w. w.now) words.now)) }
    ensures usage { result ≡ Err Usage → fault_of program (map (λ w. w.now) words.now) ≢ [] }
{
    let command = described(alloc)?;
    match command.try_get_matches_from(words) {
        Ok(matches) => Ok(matches),
        Err(error) => match error.kind() {
            ErrorKind::OutOfMemory => Err(JobFault::Memory),
            _ => Err(JobFault::Usage),
        },
    }
}

// An option that takes one value.
fn option<'a>(alloc: Global, name: &'a str) -> Arg<'a>
    ensures { rule_of result ≡ option name.entry.now }
{
    Arg::new(alloc, name).long(name).action(ArgAction::Set)
}

// The arguments of the program, in their order: the command's word, which must be there, any number of further words, and
// the options.
fn arguments<'a>(alloc: Global) -> Result<Vec<Arg<'a>>, AllocError>
    ensures { IfOk result (λ args. map rule_of args.items ≡ rules) }
{
    let args = vec![in alloc;
        Arg::new(alloc, "command").required(true),
        Arg::new(alloc, "file").num_args(0..),
        option(alloc, "main"),
        option(alloc, "observer"),
        option(alloc, "value"),
        option(alloc, "nodes"),
        option(alloc, "drop"),
        option(alloc, "max-order"),
    ]?;
    Ok(args)
}

// The program as `clap` sees it: one simple command without help and version flags.
fn described<'a>(alloc: Global) -> Result<Command<'a>, AllocError>
    ensures { IfOk result (λ command. app_of command ≡ program) }
{
    let args = arguments(alloc)?;
    Command::new(alloc, "altarica")
        .disable_help_flag(true)
        .disable_version_flag(true)
        .args(args)
}

// What a command line says.
#[derive(Drop)]
pub struct CommandLine<'m, 'a> {
    // The command's word.
    pub command: Option<&'a str>,
    // The words behind it that belong to no option, where there are any.
    pub files: Option<&'m [&'a str]>,
    // The values of the options that were used.
    pub main: Option<&'a str>,
    pub observer: Option<&'a str>,
    pub value: Option<&'a str>,
    pub nodes: Option<&'a str>,
    pub dropped: Option<&'a str>,
    pub order: Option<&'a str>,
}

// What the matches say.
pub(crate) fn command_line<'m, 'a>(matches: &'m ArgMatches<'a>) -> CommandLine<'m, 'a>
    ensures { told result ≡ command_words_of (rows_of (found_of matches.now)) }
{
    CommandLine {
        command: matches.get_str("command"),
        files: matches.get_strs("file"),
        main: matches.get_str("main"),
        observer: matches.get_str("observer"),
        value: matches.get_str("value"),
        nodes: matches.get_str("nodes"),
        dropped: matches.get_str("drop"),
        order: matches.get_str("max-order"),
    }
}
