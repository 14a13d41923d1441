//! Why a text is no model.

ghost use Rattle.std.specs.Prelude.{◌≡◌};
ghost use Rattle.ar_parser.specs.declared.fault.ParseFault.TheVariants.{Memory};
ghost use Rattle.ar_parser.specs.Names.{told};

use ar_base::Place;
use expression_grammar::Refusal;
use std::alloc::{AllocError, AllocFailed};

/// Why a text is no model.
#[derive(Clone, Copy)]
pub enum ParseFault {
    /// The text has no tokens: its first lexical fault.
    Lex(Place),
    /// No model goes on with the token that stands here.
    Syntax(Place),
    /// The token that stands here opens a production inside 128 others.
    Depth(Place),
    /// Memory was refused.
    Memory,
}

impl From<AllocError> for ParseFault {
    ghost from_gives = { λ _ e. e ≡ Memory };

    fn from(_error: AllocError) -> Self {
        ParseFault::Memory
    }
}

impl<T: Drop> From<AllocFailed<T>> for ParseFault {
    ghost from_gives = { λ _ e. e ≡ Memory };

    fn from(_failed: AllocFailed<T>) -> Self {
        ParseFault::Memory
    }
}

/// The refusal of a text whose tokens are refused so, where the next token stands here.
pub fn refused_at(refusal: Refusal, at: Place) -> ParseFault
    ensures { result ≡ told refusal at }
{
    match refusal {
        Refusal::Syntax => ParseFault::Syntax(at),
        Refusal::Depth => ParseFault::Depth(at),
        Refusal::Memory => ParseFault::Memory,
    }
}
