//! Domains, items and models.

ghost use Rattle.std.specs.Prelude.{◌≡◌, ◌≢◌, ◌++◌, ℕ, IfOk, IfErr, IfSome, IfNone};
ghost use Rattle.ar_lexer.specs.declared.token.TokenKind.TheVariants.{Whole, End};
ghost use Rattle.expression_grammar.specs.Words.{deep, each, many, ReadsSome};
ghost use Rattle.ar_grammar.specs.Texts.{whole_tokens, bound_tokens, domain_tokens, item_tokens, model_tokens};
ghost use Rattle.ar_grammar.specs.Parts.{domain_body_tokens};
ghost use Rattle.ar_grammar.specs.Items.{ReadsWhole, ReadsBound, ReadsDomainBody, ReadsDomain, ReadsItem, ReadsItems};
ghost use Rattle.expression_grammar.specs.Results.{first_token_kind, TakesTokens, FindsRefusal, Halts, Spans, Eats, Plain, anything};
ghost use Rattle.ar_grammar.specs.Results.{Gets, AreUnsigned, IsRefusedAs, ends_item, is_end};

use crate::begins::begins_item;
use crate::body::unit;
use crate::names::{names, placed_name};
use ar_lexer::{TokenKind, signs, words};
use ar_syntax::{DomainBody, DomainDecl, Item};
use expression_grammar::{Parser, Refusal, list_of, put};

/// Takes all that is left as the items of a model, or stops at the token that is refused.
pub fn model(parser: &mut Parser<'_>, left: u32) -> Result<Vec<Item>, Refusal>
    requires unsigned { AreUnsigned parser.old.rest.now }
    requires plain { Plain parser.old.rest.now }
    ensures found { IfOk result (λ items. ReadsItems left items.items End parser.old.rest.now) }
    ensures only { (n : ℕ) → ReadsSome (ReadsItems n) End parser.old.rest.now → Gets left n result }
    ensures stuck { IfErr result (λ e. IsRefusedAs left e parser.old.rest.now parser.new.rest.now) }
{
    let items = items(parser, left)?;
    if parser.rest.is_empty() {
        return Ok(items);
    }
    Err(Refusal::Syntax)
}

/// Takes the next token if it is a whole number.
fn eat_whole(parser: &mut Parser<'_>) -> Option<i64>
    ensures taken { IfSome result (λ n. Eats (Whole n) parser.old.rest.now parser.new.rest.now) }
    ensures left { IfNone result (parser.new.rest.now ≡ parser.old.rest.now) }
    ensures other { IfNone result ((n : _) → first_token_kind parser.old.rest.now ≢ Whole n) }
{
    if let Some((next, rest)) = parser.rest.split_first() {
        if let TokenKind::Whole(n) = next.kind {
            parser.rest = rest;
            return Some(n);
        }
    }
    None
}

/// Takes a whole number.
fn whole(parser: &mut Parser<'_>) -> Result<i64, Refusal>
    requires { AreUnsigned parser.old.rest.now }
    ensures found { TakesTokens ReadsWhole result parser.old.rest.now parser.new.rest.now }
    ensures only { (left : ℕ) → FindsRefusal (λ _. whole_tokens) anything left result parser.old.rest.now
        parser.new.rest.now }
    ensures stuck { (left : ℕ) → Halts (λ _. whole_tokens) left result parser.old.rest.now
        parser.new.rest.now }
{
    match eat_whole(parser) {
        Some(n) => Ok(n),
        None => Err(Refusal::Syntax),
    }
}

/// Takes a bound of a range: [ "-" ] whole.
fn bound(parser: &mut Parser<'_>) -> Result<i64, Refusal>
    requires { AreUnsigned parser.old.rest.now }
    ensures found { TakesTokens ReadsBound result parser.old.rest.now parser.new.rest.now }
    ensures only { (left : ℕ) → FindsRefusal (λ _. bound_tokens) anything left result parser.old.rest.now
        parser.new.rest.now }
    ensures stuck { (left : ℕ) → Halts (λ _. bound_tokens) left result parser.old.rest.now
        parser.new.rest.now }
{
    if parser.eat(TokenKind::Sign(signs::MINUS)) {
        let n = whole(parser)?;
        return Ok(-n);
    }
    whole(parser)
}

/// Takes what a domain holds: "{" Names "}" | "[" Bound "," Bound "]".
fn domain_body(parser: &mut Parser<'_>) -> Result<DomainBody, Refusal>
    requires { AreUnsigned parser.old.rest.now }
    ensures found { TakesTokens ReadsDomainBody result parser.old.rest.now parser.new.rest.now }
    ensures only { (left : ℕ) → FindsRefusal (λ _. domain_body_tokens) anything left result
        parser.old.rest.now parser.new.rest.now }
    ensures stuck { (left : ℕ) → Halts (λ _. domain_body_tokens) left result parser.old.rest.now
        parser.new.rest.now }
{
    if parser.eat(TokenKind::Sign(signs::OPEN_BRACE)) {
        let symbols = names(parser)?;
        parser.expect(TokenKind::Sign(signs::CLOSE_BRACE))?;
        return Ok(DomainBody::Symbols(symbols));
    }
    parser.expect(TokenKind::Sign(signs::OPEN_BRACKET))?;
    let low = bound(parser)?;
    parser.expect(TokenKind::Sign(signs::COMMA))?;
    let high = bound(parser)?;
    parser.expect(TokenKind::Sign(signs::CLOSE_BRACKET))?;
    Ok(DomainBody::Range(low, high))
}

/// Takes "domain" name DomainBody [ ";" ].
fn domain(parser: &mut Parser<'_>) -> Result<DomainDecl, Refusal>
    requires { AreUnsigned parser.old.rest.now }
    ensures found { TakesTokens ReadsDomain result parser.old.rest.now parser.new.rest.now }
    ensures only { (left : ℕ) → FindsRefusal (λ _. domain_tokens) ends_item left result parser.old.rest.now
        parser.new.rest.now }
    ensures stuck { (left : ℕ) → Halts (λ _. domain_tokens) left result parser.old.rest.now
        parser.new.rest.now }
{
    parser.expect(TokenKind::Reserved(words::DOMAIN))?;
    let (name, at) = placed_name(parser)?;
    let body = domain_body(parser)?;
    // A semicolon may stand behind it.
    parser.eat(TokenKind::Sign(signs::SEMICOLON));
    Ok(DomainDecl { name, at, body })
}

/// Takes an item, with room for `left` open productions.
fn item(parser: &mut Parser<'_>, left: u32) -> Result<Item, Refusal>
    requires { AreUnsigned parser.old.rest.now }
    ensures found { TakesTokens (ReadsItem left) result parser.old.rest.now parser.new.rest.now }
    ensures only { FindsRefusal (item_tokens deep) ends_item left result parser.old.rest.now
        parser.new.rest.now }
    ensures stuck { Halts (item_tokens deep) left result parser.old.rest.now parser.new.rest.now }
{
    if parser.is_at(TokenKind::Reserved(words::DOMAIN)) {
        let domain = domain(parser)?;
        return Ok(Item::Domain(domain));
    }
    if parser.eat(TokenKind::Reserved(words::CLASS)) {
        let class = unit(parser, left)?;
        return Ok(Item::Class(class));
    }
    parser.expect(TokenKind::Reserved(words::BLOCK))?;
    let block = unit(parser, left)?;
    Ok(Item::Block(block))
}

/// Takes the items behind the first.
fn more_items(parser: &mut Parser<'_>, left: u32, items: &mut Vec<Item>) -> Result<(), Refusal>
    requires { AreUnsigned parser.old.rest.now }
    ensures found { IfOk result (λ _. (more : _) × (items.new.items ≡ items.old.items ++ more)
        × Spans (each (ReadsItem left) more) parser.old.rest.now parser.new.rest.now) }
    ensures only { FindsRefusal (λ n. many (item_tokens deep n)) is_end left result parser.old.rest.now
        parser.new.rest.now }
    ensures stuck { Halts (λ n. many (item_tokens deep n)) left result parser.old.rest.now
        parser.new.rest.now }
{
    while begins_item(parser.kind()) {
        let item = item(parser, left)?;
        put(items, item)?;
    }
    Ok(())
}

/// Takes the items of a model: Item { Item }.
fn items(parser: &mut Parser<'_>, left: u32) -> Result<Vec<Item>, Refusal>
    requires { AreUnsigned parser.old.rest.now }
    ensures found { TakesTokens (λ items. ReadsItems left items.items) result parser.old.rest.now
        parser.new.rest.now }
    ensures only { FindsRefusal (model_tokens deep) is_end left result parser.old.rest.now
        parser.new.rest.now }
    ensures stuck { Halts (model_tokens deep) left result parser.old.rest.now parser.new.rest.now }
{
    let first = item(parser, left)?;
    let mut items = list_of(parser.alloc, first)?;
    more_items(parser, left, &mut items)?;
    Ok(items)
}
