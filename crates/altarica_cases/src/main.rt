//! Runs the worked cases of its folder over a shelf and a sink in memory.
//!
//! Each folder but `plants` is a case, which has its words, its files, and what it has to answer. For each its name and the
//! status are printed, with the faults that the shelf and the sink counted where there are some, and where it answers
//! otherwise what it wrote. Then come the texts of the file `texts`, each with a job over it, the limits, each at its number
//! and one past it, over texts that are made here, a long listing over sinks that fail, and texts of tables that are read:
//! of these all that they wrote is printed.
#![tactic(auto)]

mod cases;
mod limits;
mod made;
mod sinks;
mod table_texts;
mod texts;

use altarica_run::altarica;
use ar_base::Memory;
use ar_io::{MemoryShelf, MemorySink};
use cases::run_cases;
use limits::run_limits;
use sinks::run_sinks;
use std::io;
use std::io::Write;
use std::str::from_utf8;
use table_texts::run_table_texts;
use texts::run_texts;

/// The room for what a job writes, in bytes.
const ROOM: usize = 65_536;

/// The room for what it writes where the last line alone is printed, in bytes.
const LONG: usize = 262_144;

/// Runs the job of the words, over a shelf and a sink of which this call fails.
pub(crate) fn answer_of(
    rt: &HostRuntime,
    shelf: &mut MemoryShelf,
    failing_put: Option<u32>,
    words: &[String],
) -> io::Result<Answer> {
    let mut sink = MemorySink::new(rt.alloc(), ROOM).map_err(no_memory)?;
    if let Some(call) = failing_put {
        sink.fail_at(&[call]).map_err(no_memory)?;
    }
    let number = altarica(rt.alloc(), words, shelf, &mut sink).number();
    let status = match (shelf.fault_count(), sink.fault_count()) {
        (0, 0) => format!(in rt.alloc(); "{number}\n")?,
        (loads, puts) => format!(in rt.alloc(); "{number} faults {loads} {puts}\n")?,
    };
    Ok(Answer { status, sink })
}

fn no_memory(_memory: Memory) -> io::Error {
    io::Error::from(io::ErrorKind::OutOfMemory)
}

/// What a job answers.
#[derive(Drop)]
pub(crate) struct Answer {
    /// The line of its status, with the faults of the shelf and of the sink where there are some.
    status: String,
    /// What it wrote.
    sink: MemorySink,
}

/// Runs the job of these words, where `model` and `script` name these texts, and prints what it answers.
pub(crate) fn run_job(rt: &HostRuntime, name: &str, texts: [&str; 2], job: &str) -> io::Result<()> {
    let mut shelf = MemoryShelf::new(rt.alloc());
    for (file, text) in ["model", "script"].iter().zip(texts) {
        shelf.place(file, text.as_bytes()).map_err(no_memory)?;
    }
    let answer = answer_of(rt, &mut shelf, None, &words_of(rt, job)?)?;
    print!(rt; "{name}: status {}", answer.status)?;
    io::writer(rt).write_all(answer.sink.bytes())
}

// The words of a line.
pub(crate) fn words_of(rt: &HostRuntime, line: &str) -> io::Result<Vec<String>> {
    let mut words = Vec::new(rt.alloc());
    for word in line.split(' ') {
        words.push(String::from_str(rt.alloc(), word)?)?;
    }
    Ok(words)
}

/// Runs the job of these words, where `model` and `script` name these texts, and prints the last line of its text.
pub(crate) fn end_of_job(
    rt: &HostRuntime,
    name: &str,
    texts: [&str; 2],
    job: &str,
) -> io::Result<()> {
    let mut shelf = MemoryShelf::new(rt.alloc());
    for (file, text) in ["model", "script"].iter().zip(texts) {
        shelf.place(file, text.as_bytes()).map_err(no_memory)?;
    }
    let mut sink = MemorySink::new(rt.alloc(), LONG).map_err(no_memory)?;
    let words = words_of(rt, job)?;
    let status = altarica(rt.alloc(), &words, &mut shelf, &mut sink).number();
    let text = from_utf8(sink.bytes()).unwrap_or("");
    let last = text.lines().last().unwrap_or("");
    println!(rt; "{name}: status {status}")?;
    println!(rt; "{last}")
}

// Runs the cases, the texts, the limits, the failing sinks, and the texts of tables.
fn main(rt: HostRuntime) -> io::Result<()> {
    run_cases(&rt)?;
    run_texts(&rt)?;
    run_limits(&rt)?;
    run_sinks(&rt)?;
    run_table_texts(&rt)
}
