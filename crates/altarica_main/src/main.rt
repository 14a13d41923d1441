//! The program: hands its words, the files and standard output to the one call, and ends with its exit status.
#![tactic(auto)]

use altarica_run::exit;
use ar_io::{FileShelf, StdSink};
use std::process::ExitCode;
use std::{env, io};

// The exit status where memory for the words is refused.
const NO_MEMORY: u8 = 9;

// The exit status where the system refuses the words for another cause.
const NO_WORDS: u8 = 12;

// The words of the call, the program's name first.
fn words(rt: &HostRuntime) -> io::Result<Vec<String>> {
    Ok(env::args(rt)?.collect(rt.alloc())?)
}

fn main(rt: HostRuntime) -> ExitCode {
    match words(&rt) {
        Ok(words) => exit(
            rt.alloc(),
            &words,
            &mut FileShelf::new(&rt),
            &mut StdSink::new(&rt),
        ),
        Err(error) => match error.kind() {
            io::ErrorKind::OutOfMemory => ExitCode::from(NO_MEMORY),
            _ => ExitCode::from(NO_WORDS),
        },
    }
}
