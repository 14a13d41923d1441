//! The tokens of a text.

ghost use Rattle.std.specs.Prelude.{◌≡◌, ◌+◌, ◌<◌, ◌≤◌, ◌^◌, ◌≢◌, IfOk, IfErr, IsErrAnd, MatchResult, length, take, drop};
ghost use Rattle.ar_lexer.specs.Tokens.{AreTokens, IsFirstFault};
ghost use Rattle.ar_lexer.specs.Scans.{MovesPlace, IsTokenAt};
ghost use Rattle.ar_base.specs.Counts.{limit_of};
ghost use Rattle.ar_base.specs.declared.counts.Count.TheVariants.{ModelBytes};

use crate::piece::{Piece, piece_at};
use crate::token::{LexFault, Token, TokenKind};
use ar_base::{Place, Span};
use std::alloc::Global;

// How far a text has been read, and the place that was reached.
#[derive(Clone, Copy)]
struct Cursor<'a> {
    rest: &'a [u8],
    at: u32,
    place: Place,
}

impl<'a> Cursor<'a> {
    // Goes on by so many bytes.
    fn advance(&mut self, len: usize)
        requires within { len ≤ length self.old.rest.now }
        requires at { self.old.at + len < 2 ^ 32 }
        requires line { self.old.place.line + len < 2 ^ 32 }
        requires column { self.old.place.column + len < 2 ^ 32 }
        ensures rest { self.new.rest.now ≡ drop len self.old.rest.now }
        ensures at { self.new.at ≡ self.old.at + len }
        ensures place { MovesPlace (take len self.old.rest.now) self.old.place self.new.place }
    {
        let (passed, rest) = self.rest.split_at(len);
        for b in passed {
            if *b == b'\n' {
                self.place.line += 1;
                self.place.column = 1;
            } else {
                self.place.column += 1;
            }
        }
        self.at += len as u32;
        self.rest = rest;
    }

    // The token of this kind of so many bytes.
    fn token(&self, kind: TokenKind, len: usize) -> Token
        requires { self.now.at + len < 2 ^ 32 }
        ensures { IsTokenAt self.now.at self.now.place kind len result }
    {
        Token {
            kind,
            span: Span {
                from: self.at,
                to: self.at + len as u32,
            },
            at: self.place,
        }
    }
}

// The tokens of the text, or its first fault.
fn scanned(alloc: Global, text: &[u8]) -> Result<Vec<Token>, LexFault>
    requires { length text.now ≤ limit_of ModelBytes }
    ensures found { IfOk result (λ v. AreTokens text.now v.items) }
    ensures refused { IfErr result (λ fault. fault ≢ LexFault.Memory
        → IsFirstFault text.now fault) }
{
    let mut cursor = Cursor {
        rest: text,
        at: 0,
        place: Place { line: 1, column: 1 },
    };
    let mut found = Vec::new(alloc);
    while !cursor.rest.is_empty() {
        match piece_at(cursor.rest) {
            Piece::Gap(len) => cursor.advance(len),
            Piece::Text(kind, len) => {
                found.push(cursor.token(kind, len))?;
                cursor.advance(len);
            }
            Piece::OpenComment => return Err(LexFault::OpenComment(cursor.place)),
            Piece::TooLarge => return Err(LexFault::Number(cursor.place)),
            Piece::Nothing => return Err(LexFault::Byte(cursor.place)),
        }
    }
    found.push(cursor.token(TokenKind::End, 0))?;
    Ok(found)
}

/// The tokens of the text, in order, the last of them its end; or the first fault from the left: a byte
/// at which no token begins, a comment that is not closed, or a whole number above 2^63 - 1.
///
/// The text may have at most 4,194,304 bytes. Want of memory may refuse any text.
pub fn tokens(alloc: Global, text: &[u8]) -> Result<Vec<Token>, LexFault>
    requires { length text.now ≤ limit_of ModelBytes }
    ensures found { IfOk result (λ v. AreTokens text.now v.items) }
    ensures refused { IfErr result (λ fault. fault ≢ LexFault.Memory
        → IsFirstFault text.now fault) }

    // A text that has tokens gives these, and a text with a fault is refused for its first one.
    ensures only { (ts : _) → AreTokens text.now ts
        → MatchResult result (λ v. v.items ≡ ts) (λ fault. fault ≡ LexFault.Memory) }
    ensures first { (fault : _) → IsFirstFault text.now fault
        → IsErrAnd result (λ e. e ≢ LexFault.Memory → e ≡ fault) }
{
    scanned(alloc, text)
}
