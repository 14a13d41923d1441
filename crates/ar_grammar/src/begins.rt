//! Which tokens begin an instruction, a member, a section, a body or an item.

ghost use Rattle.std.specs.Prelude.{◌≡◌};
ghost use Rattle.expression_grammar.specs.Results.{is_word};
ghost use Rattle.ar_grammar.specs.Results.{begins_instr, begins_keyed, begins_member, begins_section, begins_later, begins_body, begins_item};

use ar_lexer::{TokenKind, signs, words};
use expression_grammar::is_word;

/// Whether the token begins an instruction.
pub(crate) fn begins_instr(kind: TokenKind) -> bool
    ensures { result ≡ begins_instr kind }
{
    match kind {
        TokenKind::Name => true,
        TokenKind::Sign(sign) => sign == signs::OPEN_BRACE,
        TokenKind::Reserved(word) => word == words::OWNER
            || word == words::MAIN
            || word == words::SKIP
            || word == words::IF,
        _ => false,
    }
}

/// Whether the token begins a clause that begins with a reserved word.
fn begins_keyed(kind: TokenKind) -> bool
    ensures { result ≡ begins_keyed kind }
{
    match kind {
        TokenKind::Reserved(word) => {
            word == words::EXTENDS
                || word == words::BOOLEAN
                || word == words::BLOCK
                || word == words::CLONES
                || word == words::EMBEDS
                || word == words::PARAMETER
                || word == words::EVENT
                || word == words::OBSERVER
                || word == words::HIDE
        }
        _ => false,
    }
}

/// Whether the token begins a member.
pub(crate) fn begins_member(kind: TokenKind) -> bool
    ensures { result ≡ begins_member kind }
{
    match kind {
        TokenKind::Name => true,
        _ => begins_keyed(kind),
    }
}

/// Whether the token begins a section.
pub(crate) fn begins_section(kind: TokenKind) -> bool
    ensures { result ≡ begins_section kind }
{
    is_word(words::TRANSITION, kind) || is_word(words::ASSERTION, kind)
}

/// Whether the token goes on with a body behind its first section.
pub(crate) fn begins_later(kind: TokenKind) -> bool
    ensures { result ≡ begins_later kind }
{
    begins_section(kind) || begins_keyed(kind)
}

/// Whether the token begins a body that is not empty.
pub(crate) fn begins_body(kind: TokenKind) -> bool
    ensures { result ≡ begins_body kind }
{
    begins_section(kind) || begins_member(kind)
}

/// Whether the token begins an item.
pub(crate) fn begins_item(kind: TokenKind) -> bool
    ensures { result ≡ begins_item kind }
{
    is_word(words::DOMAIN, kind) || is_word(words::CLASS, kind) || is_word(words::BLOCK, kind)
}
