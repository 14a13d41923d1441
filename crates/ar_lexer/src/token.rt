//! Tokens, and why a text has none.

ghost use Rattle.std.specs.Prelude.{◌≡◌};
ghost use Rattle.ar_lexer.specs.declared.token.LexFault.TheVariants.{Memory};

use ar_base::{Place, Span};
use std::alloc::AllocFailed;

/// What a token is.
#[derive(Clone, Copy, PartialEq, Eq)]
pub enum TokenKind {
    /// A letter or `_`, and then letters, digits and `_`, where this is no reserved word.
    Name,
    /// Digits, with the number that they stand for.
    Whole(i64),
    /// Digits with a fraction, an exponent, or both.
    Real,
    /// A sign, by its place in the list of signs, counted from 0: a constant of `signs`.
    Sign(u8),
    /// A reserved word, by its place in the list of reserved words, counted from 0: a constant of `words`.
    Reserved(u8),
    /// The end of the text.
    End,
}

/// A token of a text.
#[derive(Clone, Copy)]
pub struct Token {
    /// What it is.
    pub kind: TokenKind,
    /// The bytes that it takes.
    pub span: Span,
    /// Where it begins.
    pub at: Place,
}

/// Why a text has no tokens.
#[derive(Clone, Copy)]
pub enum LexFault {
    /// No token, blank or comment begins here.
    Byte(Place),
    /// A comment begins here and is not closed.
    OpenComment(Place),
    /// A whole number above 2^63 - 1 stands here.
    Number(Place),
    /// Memory was refused.
    Memory,
}

impl<T: Drop> From<AllocFailed<T>> for LexFault {
    ghost from_gives = { λ _ e. e ≡ Memory };

    fn from(_failed: AllocFailed<T>) -> Self {
        LexFault::Memory
    }
}
