//! What stands at the front of a text: a blank, a comment, a token, or a fault.

ghost use Rattle.std.specs.Prelude.{◌≡◌, ◌<◌, ◌≤◌, ◌++◌, IfSome, IfNone, length, Some};
ghost use Rattle.ar_lexer.specs.Spelling.{place_in, signs};
ghost use Rattle.std.specs.Char.{is_ascii_digit};
ghost use Rattle.ar_lexer.specs.Scans.{ClosesFirst, IsSignFront, IsSignOfLen, IsPieceAt, HeadPasses};
ghost use Rattle.ar_lexer.specs.Tokens.{BeginsComment, Closes};

use crate::marks::sign_of;
use crate::numbers::{tail_len, whole_of};
use crate::runs::{digits_len, is_blank, is_letter, line_len, word_len};
use crate::tables::word_of;
use crate::token::TokenKind;

/// What stands at the front of a text.
#[derive(Clone, Copy)]
pub enum Piece {
    /// A blank or a comment of so many bytes.
    Gap(usize),
    /// A token of this kind of so many bytes.
    Text(TokenKind, usize),
    /// A comment that is not closed.
    OpenComment,
    /// A whole number above 2^63 - 1.
    TooLarge,
    /// Nothing that a text may have.
    Nothing,
}

/// What stands at the front of these bytes.
pub fn piece_at(rest: &[u8]) -> Piece
    requires { 0 < length rest.now }
    ensures { IsPieceAt rest.now result }
{
    let first = rest[0];
    if is_blank(first) {
        return Piece::Gap(1);
    }
    if is_letter(first) {
        let len = word_len(rest);
        let kind = match word_of(&rest[..len]) {
            Some(word) => TokenKind::Reserved(word),
            None => TokenKind::Name,
        };
        return Piece::Text(kind, len);
    }
    if first.is_ascii_digit() {
        return number_at(rest);
    }
    if let Some(piece) = comment_at(rest) {
        return piece;
    }
    match sign_at(rest) {
        Some((sign, len)) => Piece::Text(TokenKind::Sign(sign), len),
        None => Piece::Nothing,
    }
}

// The bytes before the first `*/`.
fn close_of(bytes: &[u8]) -> Option<usize>
    ensures found { IfSome result (ClosesFirst bytes.now) }
    ensures none { IfNone result ((back : _) → Closes bytes.now back → ⊥) }
{
    let mut n = 0;
    while n + 1 < bytes.len() {
        if bytes[n] == b'*' && bytes[n + 1] == b'/' {
            return Some(n);
        }
        n += 1;
    }
    None
}

// The comment at the front.
fn comment_at(rest: &[u8]) -> Option<Piece>
    ensures found { IfSome result (IsPieceAt rest.now) }
    ensures none { IfNone result (BeginsComment rest.now → ⊥) }
{
    if rest.len() < 2 {
        return None;
    }
    if rest[0] != b'/' {
        return None;
    }
    let (_, body) = rest.split_at(2);
    if rest[1] == b'/' {
        return Some(Piece::Gap(2 + line_len(body)));
    }
    if rest[1] != b'*' {
        return None;
    }
    match close_of(body) {
        Some(n) => Some(Piece::Gap(n + 4)),
        None => Some(Piece::OpenComment),
    }
}

// The sign of so many bytes at the front.
fn sign_front(rest: &[u8], len: usize) -> Option<u8>
    ensures { IsSignOfLen rest.now len result }
{
    if len <= rest.len() {
        sign_of(&rest[..len])
    } else {
        None
    }
}

// The longest sign at the front, and its number of bytes.
fn sign_at(rest: &[u8]) -> Option<(u8, usize)>
    ensures found { IfSome result (λ r. (1 ≤ r.1) × IsSignFront rest.now r.0 r.1) }
    ensures none { IfNone result ((front back : _) (p : _) → rest.now ≡ front ++ back
        → place_in signs front ≡ Some p → ⊥) }
{
    if let Some(sign) = sign_front(rest, 3) {
        return Some((sign, 3));
    }
    if let Some(sign) = sign_front(rest, 2) {
        return Some((sign, 2));
    }
    match sign_front(rest, 1) {
        Some(sign) => Some((sign, 1)),
        None => None,
    }
}

// The number at the front.
fn number_at(rest: &[u8]) -> Piece
    requires { HeadPasses is_ascii_digit rest.now }
    ensures { IsPieceAt rest.now result }
{
    let digits = digits_len(rest);
    let tail = tail_len(&rest[digits..]);
    if tail > 0 {
        return Piece::Text(TokenKind::Real, digits + tail);
    }
    match whole_of(&rest[..digits]) {
        Some(n) => Piece::Text(TokenKind::Whole(n), digits),
        None => Piece::TooLarge,
    }
}
