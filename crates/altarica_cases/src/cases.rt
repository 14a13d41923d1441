//! The cases that are folders.
//!
//! The file `words` of a case has the words of its job, in a line, as they are typed. Words that name a file of the folder
//! stand for its bytes. `status` has what is told of the status, and `stdout` the bytes that are to be written. Where a load
//! or a put is to fail, the file `fails` has a line `load NUMBER` or `put NUMBER`.

use crate::{Answer, answer_of, no_memory, words_of};
use ar_io::MemoryShelf;
use std::io::Write;
use std::{fs, io};

/// The folder beside the cases that is none.
const PLANTS: &str = "plants";

/// Runs the job of each folder.
pub(crate) fn run_cases(rt: &HostRuntime) -> io::Result<()> {
    for name in &names(rt)? {
        run_case(rt, name.as_str())?;
    }
    Ok(())
}

// The names of the cases, in order.
fn names(rt: &HostRuntime) -> io::Result<Vec<String>> {
    let mut names = Vec::new(rt.alloc());
    for entry in fs::read_dir(rt, ".")? {
        let entry = entry?;
        let name = entry.file_name();
        if name != PLANTS && entry.metadata()?.is_dir() {
            names.push(String::from_str(rt.alloc(), name)?)?;
        }
    }
    names.sort()?;
    Ok(names)
}

// The bytes of a file of a case.
fn bytes_of(rt: &HostRuntime, case: &str, file: &str) -> io::Result<Vec<u8>> {
    let path = format!(in rt.alloc(); "{case}/{file}")?;
    fs::read(rt, path.as_str())
}

// The text of a file of a case.
fn text_of(rt: &HostRuntime, case: &str, file: &str) -> io::Result<String> {
    let path = format!(in rt.alloc(); "{case}/{file}")?;
    fs::read_to_string(rt, path.as_str())
}

// The call of this kind, `load` or `put`, that these lines make fail.
fn failing(lines: &str, kind: &str) -> Option<u32> {
    for line in lines.lines() {
        if let Some((told, number)) = line.split_once(' ') {
            if told == kind {
                return number.parse::<u32>().ok();
            }
        }
    }
    None
}

// A shelf with the files of a case that these words name, of which this load fails.
fn shelf_of(
    rt: &HostRuntime,
    case: &str,
    words: &[String],
    failing_load: Option<u32>,
) -> io::Result<MemoryShelf> {
    let mut shelf = MemoryShelf::new(rt.alloc());
    for word in words {
        if let Ok(bytes) = bytes_of(rt, case, word.as_str()) {
            shelf.place(word.as_str(), &bytes).map_err(no_memory)?;
        }
    }
    if let Some(call) = failing_load {
        shelf.fail_at(&[call]).map_err(no_memory)?;
    }
    Ok(shelf)
}

// Whether a file of a case has these bytes.
fn is_stored(rt: &HostRuntime, case: &str, file: &str, bytes: &[u8]) -> bool {
    match bytes_of(rt, case, file) {
        Ok(stored) => stored.as_slice() == bytes,
        Err(_) => false,
    }
}

// Prints the status of a case, and what it wrote where one of them is not what is stored.
fn tell(rt: &HostRuntime, case: &str, answer: &Answer) -> io::Result<()> {
    let (status, bytes) = (answer.status.as_str(), answer.sink.bytes());
    if is_stored(rt, case, "status", status.as_bytes()) && is_stored(rt, case, "stdout", bytes) {
        return print!(rt; "{case}: status {status}");
    }
    print!(rt; "{case}: not as stored: status {status}")?;
    io::writer(rt).write_all(bytes)
}

// Runs the job of a case.
fn run_case(rt: &HostRuntime, case: &str) -> io::Result<()> {
    let Ok(line) = text_of(rt, case, "words") else {
        return println!(rt; "{case}: no words");
    };
    let words = match line.lines().next() {
        Some(line) => words_of(rt, line)?,
        None => Vec::new(rt.alloc()),
    };
    let fails = match text_of(rt, case, "fails") {
        Ok(lines) => lines,
        Err(_) => String::new(rt.alloc()),
    };
    let mut shelf = shelf_of(rt, case, &words, failing(&fails, "load"))?;
    let answer = answer_of(rt, &mut shelf, failing(&fails, "put"), &words)?;
    tell(rt, case, &answer)
}
