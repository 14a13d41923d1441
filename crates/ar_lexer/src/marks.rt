//! The place of a sign in the list of signs, by its bytes.

ghost use Rattle.std.specs.Prelude.{◌≡◌};
ghost use Rattle.ar_lexer.specs.Spelling.{place_in, signs};

use crate::signs;

/// The place of a sign in the list of signs.
pub(crate) fn sign_of(text: &[u8]) -> Option<u8>
    ensures { result ≡ place_in signs text.now }
{
    match text {
        [b'{'] => Some(signs::OPEN_BRACE),
        [b'}'] => Some(signs::CLOSE_BRACE),
        [b'['] => Some(signs::OPEN_BRACKET),
        [b']'] => Some(signs::CLOSE_BRACKET),
        [b'('] => Some(signs::OPEN_PARENTHESIS),
        [b')'] => Some(signs::CLOSE_PARENTHESIS),
        [b','] => Some(signs::COMMA),
        [b';'] => Some(signs::SEMICOLON),
        [b':'] => Some(signs::COLON),
        [b'.'] => Some(signs::DOT),
        [b'='] => Some(signs::EQUALS),
        [b'<'] => Some(signs::LESS),
        [b'>'] => Some(signs::MORE),
        [b'+'] => Some(signs::PLUS),
        [b'-'] => Some(signs::MINUS),
        [b'*'] => Some(signs::STAR),
        [b'/'] => Some(signs::SLASH),
        [b'!'] => Some(signs::EXCLAMATION),
        [b'?'] => Some(signs::QUESTION),
        [b'&'] => Some(signs::AMPERSAND),
        [b':', b'='] => Some(signs::ASSIGN),
        [b'=', b'='] => Some(signs::EQUAL),
        [b'!', b'='] => Some(signs::DIFFERS),
        [b'<', b'='] => Some(signs::AT_MOST),
        [b'>', b'='] => Some(signs::AT_LEAST),
        [b'-', b'>'] => Some(signs::ARROW),
        [b':', b'=', b':'] => Some(signs::TIE),
        _ => None,
    }
}
