//! Which tokens begin an expression or an operand.

ghost use Rattle.std.specs.Prelude.{◌≡◌};
ghost use Rattle.expression_grammar.specs.Results.{is_word, begins_minus, begins_not, begins_expr};

use ar_lexer::{TokenKind, signs, words};

/// Whether the token is this reserved word.
pub fn is_word(word: u8, kind: TokenKind) -> bool
    ensures { result ≡ is_word word kind }
{
    match kind {
        TokenKind::Reserved(other) => other == word,
        _ => false,
    }
}

/// Whether the token begins an operand of a product: `-`, a constant, a path, a call, a choice or a bracket.
pub(crate) fn begins_minus(kind: TokenKind) -> bool
    ensures { result ≡ begins_minus kind }
{
    match kind {
        TokenKind::Name | TokenKind::Whole(_) | TokenKind::Real => true,
        TokenKind::Sign(sign) => sign == signs::MINUS || sign == signs::OPEN_PARENTHESIS,
        TokenKind::Reserved(word) => {
            word == words::OWNER
                || word == words::MAIN
                || word == words::TRUE
                || word == words::FALSE
                || word == words::MIN
                || word == words::MAX
                || word == words::COUNT
                || word == words::SWITCH
        }
        TokenKind::End => false,
    }
}

/// Whether the token begins an operand of `and`.
pub(crate) fn begins_not(kind: TokenKind) -> bool
    ensures { result ≡ begins_not kind }
{
    is_word(words::NOT, kind) || begins_minus(kind)
}

/// Whether the token begins an expression.
pub(crate) fn begins_expr(kind: TokenKind) -> bool
    ensures { result ≡ begins_expr kind }
{
    is_word(words::IF, kind) || begins_not(kind)
}
