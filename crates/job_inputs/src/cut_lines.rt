//! The lines of a list of cuts, and what each says.

ghost use Rattle.std.specs.Prelude.{◌≡◌, ◌-◌, ◌≤◌, ◌++◌, ℕ, List, map, length, codes, MatchOption};
ghost use Rattle.std.specs.List.{list_all, suffix_len};
ghost use Rattle.ar_meaning.specs.Found.{IsAnswer};
ghost use Rattle.job_inputs.specs.CutLines.{IsPassed, trimmed, trimmed_line, texts_in, is_comma, is_label, is_of_label};
ghost use Rattle.job_inputs.specs.CutReads.{IsListLine};
ghost use Rattle.job_inputs.specs.Lines.{is_space_or_tab, pieces};

use crate::cutting::first_piece;
use crate::lines::{Line, blanks_len, is_space_or_tab, line_of, without_return};

/// What a line of a list says.
pub(crate) enum ListLine<'a> {
    /// Nothing.
    Passed,
    /// The labels between these commas.
    Labels(&'a [u8]),
    /// No cut.
    NoCut,
}

/// What a line of a list says.
pub(crate) fn list_line(line: &[u8]) -> ListLine<'_>
    ensures { IsListLine result line.now }
{
    if is_passed(line) {
        return ListLine::Passed;
    }
    match between_braces(trimmed_line(line)) {
        Some(inner) => if are_labels(inner) {
            ListLine::Labels(inner)
        } else {
            ListLine::NoCut
        },
        None => ListLine::NoCut,
    }
}

// Whether a line is skipped.
fn is_passed(line: &[u8]) -> bool
    ensures { IsAnswer result (IsPassed line.now) }
{
    match line_of(line) {
        Line::Skipped => true,
        _ => trimmed_line(line).starts_with(b"count"),
    }
}

// The line without a carriage return at its end, and without the spaces and tabs at both ends.
fn trimmed_line(line: &[u8]) -> &[u8]
    ensures { result.now ≡ trimmed_line line.now }
{
    trimmed(without_return(line))
}

/// The text without the spaces and tabs at both ends.
pub(crate) fn trimmed(text: &[u8]) -> &[u8]
    ensures { result.now ≡ trimmed text.now }
{
    let blanks = blanks_len(text);
    let rest = &text[blanks..];
    let len = words_len(rest);
    &rest[..len]
}

// How many bytes stand before the blanks at the end.
fn words_len(bytes: &[u8]) -> usize
    ensures value { result ≡ length bytes.now - suffix_len is_space_or_tab bytes.now }
    ensures within { result ≤ length bytes.now }
{
    let mut n = bytes.len();
    while n > 0 && is_space_or_tab(bytes[n - 1]) {
        n -= 1;
    }
    n
}

// What stands between the braces at both ends of a text.
fn between_braces(text: &[u8]) -> Option<&[u8]>
    ensures { MatchOption result
        ((inner : List ℕ) → text.now ≡ codes "{" ++ (inner ++ codes "}") → ⊥)
        (λ inner. text.now ≡ codes "{" ++ (inner.now ++ codes "}")) }
{
    let (first, rest) = text.split_first()?;
    let (last, inner) = rest.split_last()?;
    if *first == b'{' && *last == b'}' {
        Some(inner)
    } else {
        None
    }
}

// Whether nothing but blanks stands there, or labels with commas between them.
fn are_labels(inner: &[u8]) -> bool
    ensures { result ≡ list_all is_label (texts_in inner.now) }
{
    trimmed(inner).is_empty() || each_is_label(inner)
}

// Whether each text between commas is a label.
fn each_is_label(inner: &[u8]) -> bool
    ensures { result ≡ list_all is_label (map trimmed (pieces is_comma inner.now)) }
{
    let mut rest = Some(inner);
    while let Some(bytes) = rest {
        let (piece, after) = first_piece(bytes, b',');
        if !is_label(trimmed(piece)) {
            return false;
        }
        rest = after;
    }
    true
}

// Whether the text is a label: a run of bytes other than commas, braces, spaces and tabs.
fn is_label(text: &[u8]) -> bool
    ensures { result ≡ is_label text.now }
{
    for byte in text {
        if !is_of_label(*byte) {
            return false;
        }
    }
    !text.is_empty()
}

// Whether a byte may stand in a label.
fn is_of_label(byte: u8) -> bool
    ensures { result ≡ is_of_label byte }
{
    !(byte == b',' || byte == b'{' || byte == b'}' || is_space_or_tab(byte))
}
