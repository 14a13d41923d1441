//! Texts of one line, each with a job over it.

use crate::run_job;
use std::{fs, io};

/// Runs the jobs of the file `texts`: each line has the words of a job, in which `model` names a text, and behind `: ` that
/// text.
pub(crate) fn run_texts(rt: &HostRuntime) -> io::Result<()> {
    let texts = fs::read_to_string(rt, "texts")?;
    for line in texts.lines() {
        if let Some((job, text)) = line.split_once(": ") {
            println!(rt; "{text}")?;
            run_job(rt, job, [text, ""], job)?;
        }
    }
    Ok(())
}
