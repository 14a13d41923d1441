//! Tokens with the numbers of their names, and why a list of them is no model.

ghost use Rattle.std.specs.Prelude.{◌≡◌};
ghost use Rattle.expression_grammar.specs.declared.lexeme.Refusal.TheVariants.{Memory};

use ar_base::{NameId, Place, Span};
use ar_lexer::TokenKind;
use std::alloc::{AllocError, AllocFailed};

/// A token, with the number of its name where it is a name.
#[derive(Clone, Copy)]
pub struct Lexeme {
    /// What it is.
    pub kind: TokenKind,
    /// The bytes that it takes.
    pub span: Span,
    /// Where it begins.
    pub at: Place,
    /// The number of its text where it is a name; 0 elsewhere.
    pub name: NameId,
}

/// Why the tokens of a text are no model.
#[derive(Clone, Copy)]
pub enum Refusal {
    /// No model goes on with the next token.
    Syntax,
    /// The next token opens a production inside 128 others.
    Depth,
    /// Memory was refused.
    Memory,
}

impl From<AllocError> for Refusal {
    ghost from_gives = { λ _ e. e ≡ Memory };

    fn from(_error: AllocError) -> Self {
        Refusal::Memory
    }
}

impl<T: Drop> From<AllocFailed<T>> for Refusal {
    ghost from_gives = { λ _ e. e ≡ Memory };

    fn from(_failed: AllocFailed<T>) -> Self {
        Refusal::Memory
    }
}
