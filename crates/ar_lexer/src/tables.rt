//! The table of reserved words.

ghost use Rattle.std.specs.Prelude.{◌≡◌, ◌<◌, IfSome, length, map};
ghost use Rattle.ar_lexer.specs.Spelling.{place_in, reserved_words};

const WORDS: [&str; 36] = [
    "and",
    "as",
    "assertion",
    "block",
    "Boolean",
    "case",
    "class",
    "clones",
    "count",
    "default",
    "domain",
    "else",
    "embeds",
    "end",
    "event",
    "extends",
    "false",
    "hide",
    "if",
    "init",
    "Integer",
    "main",
    "max",
    "min",
    "not",
    "observer",
    "or",
    "owner",
    "parameter",
    "Real",
    "reset",
    "skip",
    "switch",
    "then",
    "transition",
    "true",
];

// The place of a reserved word in the list of reserved words.
pub fn word_of(text: &[u8]) -> Option<u8>
    ensures { result ≡ place_in reserved_words text.now }
{
    let table: [&str; 36] = WORDS;
    match place_in(&table, text) {
        Some(place) => Some(place as u8),
        None => None,
    }
}

// The place of the text in the table.
fn place_in(table: &[&str], text: &[u8]) -> Option<usize>
    ensures { result ≡ place_in (map (λ entry. entry.now) table.now) text.now }
{
    for (place, entry) in table.iter().enumerate() {
        if entry.as_bytes() == text {
            return Some(place);
        }
    }
    None
}
