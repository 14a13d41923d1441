//! The lines of a script, and what each says.

ghost use Rattle.std.specs.Prelude.{◌≡◌, ◌+◌, ◌<◌, ◌≤◌, [], ◌∷◌, length, not, MatchOption};
ghost use Rattle.std.specs.List.{prefix_len};
ghost use Rattle.job_inputs.specs.Lines.{is_space_or_tab, lines_of, words_of, without_return, word_said, line_said};
ghost use Rattle.job_inputs.specs.Reads.{IsLineSaid};

use crate::cutting::first_piece;

/// What a line says.
#[derive(Drop)]
pub(crate) enum Line<'a> {
    /// Nothing.
    Skipped,
    /// That the label is fired.
    Fires(&'a [u8]),
    /// That the last step is taken back.
    GoesBack,
    /// That all values are shown.
    Shows,
    /// That the ways that can fire are listed.
    ListsEnabled,
    /// No command.
    NoCommand,
}

/// Whether a byte is a space or a tab.
pub(crate) fn is_space_or_tab(byte: u8) -> bool
    ensures { result ≡ is_space_or_tab byte }
{
    byte == b' ' || byte == b'\t'
}

/// How many blanks stand at the front.
pub(crate) fn blanks_len(bytes: &[u8]) -> usize
    ensures value { result ≡ prefix_len is_space_or_tab bytes.now }
    ensures within { result ≤ length bytes.now }
{
    let mut n = 0;
    while n < bytes.len() && is_space_or_tab(bytes[n]) {
        n += 1;
    }
    n
}

// How many bytes stand before the first blank.
fn word_len(bytes: &[u8]) -> usize
    ensures value { result ≡ prefix_len (λ b. not (is_space_or_tab b)) bytes.now }
    ensures within { result ≤ length bytes.now }
{
    let mut n = 0;
    while n < bytes.len() && !is_space_or_tab(bytes[n]) {
        n += 1;
    }
    n
}

/// The first line, and the bytes behind its line feed, if it has one.
pub(crate) fn first_line(bytes: &[u8]) -> (&[u8], Option<&[u8]>)
    ensures { MatchOption result.1 (lines_of bytes.now ≡ result.0.now ∷ [])
        (λ rest. (lines_of bytes.now ≡ result.0.now ∷ lines_of rest.now)
        × (length rest.now < length bytes.now)) }
{
    first_piece(bytes, b'\n')
}

/// The line without a carriage return at its end.
pub(crate) fn without_return(line: &[u8]) -> &[u8]
    ensures { result.now ≡ without_return line.now }
{
    if let Some((last, rest)) = line.split_last() {
        if *last == b'\r' {
            return rest;
        }
    }
    line
}

// The first word of a line, which is empty where there is none, and what stands behind it.
fn first_word(line: &[u8]) -> (&[u8], &[u8])
    ensures none { length result.0.now ≡ 0 → words_of line.now ≡ [] }
    ensures some { 0 < length result.0.now
        → words_of line.now ≡ result.0.now ∷ words_of result.1.now }
{
    let blanks = blanks_len(line);
    let rest = &line[blanks..];
    let len = word_len(rest);
    (&rest[..len], &rest[len..])
}

/// What a line says.
pub(crate) fn line_of(line: &[u8]) -> Line<'_>
    ensures { IsLineSaid result (line_said line.now) }
{
    let (command, rest) = first_word(without_return(line));
    if command.is_empty() {
        return Line::Skipped;
    }
    if command.starts_with(b"//") {
        return Line::Skipped;
    }
    let (label, rest) = first_word(rest);
    if label.is_empty() {
        return word_of(command);
    }
    let (more, _) = first_word(rest);
    if !more.is_empty() {
        return Line::NoCommand;
    }
    if command == b"fire".as_slice() {
        Line::Fires(label)
    } else {
        Line::NoCommand
    }
}

// What a line of one word says.
fn word_of(word: &[u8]) -> Line<'_>
    ensures { IsLineSaid result (word_said word.now) }
{
    if word == b"back".as_slice() {
        Line::GoesBack
    } else if word == b"show".as_slice() {
        Line::Shows
    } else if word == b"enabled".as_slice() {
        Line::ListsEnabled
    } else {
        Line::NoCommand
    }
}
