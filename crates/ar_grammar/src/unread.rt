//! Attributes of events and kept values, which are read over.

ghost use Rattle.std.specs.Prelude.{◌≡◌, ◌≢◌, ℕ, IfOk, true};
ghost use Rattle.ar_lexer.specs.declared.token.TokenKind.TheVariants.{Sign};
ghost use Rattle.ar_lexer.specs.declared.signs.TheConstants.{OPEN_PARENTHESIS, CLOSE_PARENTHESIS};
ghost use Rattle.expression_grammar.specs.Words.{deep, many, covering};
ghost use Rattle.ar_grammar.specs.Texts.{bracketed_tokens, kept_tokens};
ghost use Rattle.ar_grammar.specs.Parts.{unread_tokens, attribute_tokens, kept_piece_tokens};
ghost use Rattle.ar_grammar.specs.Members.{unread, unread_piece, kept, kept_piece, ReadsAttribute};
ghost use Rattle.ar_grammar.specs.MembersInside.{bracketed};
ghost use Rattle.expression_grammar.specs.Results.{first_token_kind, TakesTokens, FindsRefusal, Halts, Spans, anything};
ghost use Rattle.ar_grammar.specs.Results.{goes_unread, goes_kept, ends_unread, ends_kept, ends_attribute};

use ar_base::Span;
use ar_lexer::{TokenKind, signs};
use expression_grammar::{Parser, Refusal, no_room};

/// Takes [ "(" Unread ")" ] and gives the span of what is unread.
pub(crate) fn attribute(parser: &mut Parser<'_>, left: u32) -> Result<Option<Span>, Refusal>
    ensures found { TakesTokens (ReadsAttribute left) result parser.old.rest.now parser.new.rest.now }
    ensures only { FindsRefusal attribute_tokens ends_attribute left result parser.old.rest.now
        parser.new.rest.now }
    ensures stuck { Halts attribute_tokens left result parser.old.rest.now parser.new.rest.now }
{
    if !parser.is_at(TokenKind::Sign(signs::OPEN_PARENTHESIS)) {
        return Ok(None);
    }
    if left == 0 {
        return Err(no_room(true));
    }
    parser.expect(TokenKind::Sign(signs::OPEN_PARENTHESIS))?;
    let start = parser.rest;
    unread(parser, left - 1)?;
    let span = parser.span_since(start);
    parser.expect(TokenKind::Sign(signs::CLOSE_PARENTHESIS))?;
    Ok(Some(span))
}

/// Whether the next token goes on with what is unread: any token but the bracket that ends it.
fn is_at_unread(parser: &Parser<'_>) -> bool
    ensures { result ≡ goes_unread (first_token_kind parser.now.rest.now) }
{
    match parser.kind() {
        TokenKind::Sign(sign) => sign != signs::CLOSE_PARENTHESIS,
        TokenKind::End => false,
        _ => true,
    }
}

/// Takes { any token but "(" and ")" | "(" Unread ")" }, with room for `left` open brackets.
#[cycle(unread)]
fn unread(parser: &mut Parser<'_>, left: u32) -> Result<(), Refusal>
    ensures found { IfOk result (λ _. Spans (unread left) parser.old.rest.now parser.new.rest.now) }
    ensures only { FindsRefusal (λ n. many (unread_tokens n)) ends_unread left result parser.old.rest.now
        parser.new.rest.now }
    ensures stuck { Halts (λ n. many (unread_tokens n)) left result parser.old.rest.now
        parser.new.rest.now }
{
    while is_at_unread(parser) {
        unread_piece(parser, left)?;
    }
    Ok(())
}

/// Takes one token, or brackets and what they hold.
#[cycle(unread)]
fn unread_piece(parser: &mut Parser<'_>, left: u32) -> Result<(), Refusal>
    requires { goes_unread (first_token_kind parser.old.rest.now) ≡ true }
    ensures found { IfOk result (λ _.
        Spans (unread_piece left) parser.old.rest.now parser.new.rest.now) }
    ensures only { FindsRefusal unread_tokens anything left result parser.old.rest.now parser.new.rest.now }
    ensures stuck { Halts unread_tokens left result parser.old.rest.now parser.new.rest.now }
{
    if parser.is_at(TokenKind::Sign(signs::OPEN_PARENTHESIS)) {
        return unread_group(parser, left);
    }
    parser.skip();
    Ok(())
}

/// Takes "(" Unread ")".
#[cycle(unread)]
fn unread_group(parser: &mut Parser<'_>, left: u32) -> Result<(), Refusal>
    requires { first_token_kind parser.old.rest.now ≡ Sign OPEN_PARENTHESIS }
    ensures found { IfOk result (λ _.
        Spans (bracketed left) parser.old.rest.now parser.new.rest.now) }
    ensures only { FindsRefusal (bracketed_tokens deep) anything left result parser.old.rest.now
        parser.new.rest.now }
    ensures stuck { Halts (bracketed_tokens deep) left result parser.old.rest.now
        parser.new.rest.now }
{
    if left == 0 {
        return Err(no_room(true));
    }
    parser.expect(TokenKind::Sign(signs::OPEN_PARENTHESIS))?;
    unread(parser, left - 1)?;
    parser.expect(TokenKind::Sign(signs::CLOSE_PARENTHESIS))?;
    Ok(())
}

/// Whether the next token goes on with a kept value: any token but `)` and `;`.
fn is_at_kept(parser: &Parser<'_>) -> bool
    ensures { result ≡ goes_kept (first_token_kind parser.now.rest.now) }
{
    match parser.kind() {
        TokenKind::Sign(sign) => sign != signs::CLOSE_PARENTHESIS && sign != signs::SEMICOLON,
        TokenKind::End => false,
        _ => true,
    }
}

/// Takes one token of a kept value, or brackets and what they hold.
fn kept_piece(parser: &mut Parser<'_>, left: u32) -> Result<(), Refusal>
    requires { goes_kept (first_token_kind parser.old.rest.now) ≡ true }
    ensures found { IfOk result (λ _.
        Spans (kept_piece left) parser.old.rest.now parser.new.rest.now) }
    ensures only { FindsRefusal kept_piece_tokens anything left result parser.old.rest.now
        parser.new.rest.now }
    ensures stuck { Halts kept_piece_tokens left result parser.old.rest.now parser.new.rest.now }
{
    if parser.is_at(TokenKind::Sign(signs::OPEN_PARENTHESIS)) {
        return unread_group(parser, left);
    }
    parser.skip();
    Ok(())
}

/// Takes the pieces of a kept value behind the first.
fn more_kept(parser: &mut Parser<'_>, left: u32) -> Result<(), Refusal>
    ensures found { IfOk result (λ _.
        Spans (many (kept_piece left)) parser.old.rest.now parser.new.rest.now) }
    ensures only { FindsRefusal (λ n. many (kept_piece_tokens n)) ends_kept left result parser.old.rest.now
        parser.new.rest.now }
    ensures stuck { Halts (λ n. many (kept_piece_tokens n)) left result parser.old.rest.now
        parser.new.rest.now }
{
    while is_at_kept(parser) {
        kept_piece(parser, left)?;
    }
    Ok(())
}

/// Takes a kept value and gives its span: Piece { Piece }.
pub(crate) fn kept(parser: &mut Parser<'_>, left: u32) -> Result<Span, Refusal>
    ensures found { TakesTokens (λ span. covering span (kept left)) result parser.old.rest.now
        parser.new.rest.now }
    ensures only { FindsRefusal (λ n. kept_tokens (bracketed_tokens deep n)) ends_kept left result
        parser.old.rest.now parser.new.rest.now }
    ensures stuck { Halts (λ n. kept_tokens (bracketed_tokens deep n)) left result parser.old.rest.now
        parser.new.rest.now }
{
    let start = parser.rest;
    if !is_at_kept(parser) {
        return Err(Refusal::Syntax);
    }
    kept_piece(parser, left)?;
    more_kept(parser, left)?;
    Ok(parser.span_since(start))
}
