//! The tokens that are left, and the steps over one of them.

ghost use Rattle.std.specs.Prelude.{◌≡◌, ◌≢◌, ◌∷◌, ◌++◌, ℕ, IfOk};
ghost use Rattle.std.specs.Bool.{OnTrue, OnFalse};
ghost use Rattle.ar_lexer.specs.declared.token.TokenKind.TheVariants.{Name, End};
ghost use Rattle.expression_grammar.specs.declared.lexeme.Refusal.TheVariants.{Syntax, Depth};
ghost use Rattle.expression_grammar.specs.Words.{token, end_of_tokens, StandsAt, IsSpanOf, place_at};
ghost use Rattle.expression_grammar.specs.Results.{first_token_kind, FindsRefusal, Halts, Eats, anything};

use crate::lexeme::{Lexeme, Refusal};
use ar_base::{Place, Span};
use ar_lexer::TokenKind;
use ar_syntax::{RawExpr, RawForm};
use std::alloc::Global;

/// The tokens that are left to read. None of them is the end of the text, which is where they end.
pub struct Parser<'a> {
    /// What lists and boxes are made in.
    pub alloc: Global,
    /// The tokens that are left.
    pub rest: &'a [Lexeme],
    /// The place of the end of the text.
    pub end: Place,
}

/// The place of the first of these tokens, and of the end where there is none.
pub fn place_of(rest: &[Lexeme], end: Place) -> Place
    ensures { result ≡ place_at end rest.now }
{
    match rest.first() {
        Some(next) => next.at,
        None => end,
    }
}

/// The refusal where no room is left for a production that the next token begins, or does not begin.
pub fn no_room(begins: bool) -> Refusal
    ensures deep { OnTrue begins (result ≡ Depth) }
    ensures other { OnFalse begins (result ≡ Syntax) }
{
    if begins {
        Refusal::Depth
    } else {
        Refusal::Syntax
    }
}

impl<'a> Parser<'a> {
    /// The kind of the next token, and `End` where none is left.
    pub fn kind(&self) -> TokenKind
        ensures { result ≡ first_token_kind self.now.rest.now }
    {
        match self.rest.first() {
            Some(next) => next.kind,
            None => TokenKind::End,
        }
    }

    /// The place of the next token, and the end where none is left.
    pub fn place(&self) -> Place
        ensures { result ≡ place_at self.now.end self.now.rest.now }
    {
        place_of(self.rest, self.end)
    }

    /// Whether the next token is of this kind.
    pub fn is_at(&self, kind: TokenKind) -> bool
        ensures yes { OnTrue result (first_token_kind self.now.rest.now ≡ kind) }
        ensures no { OnFalse result (first_token_kind self.now.rest.now ≢ kind) }
    {
        self.kind() == kind
    }

    /// Takes the next token if it is of this kind, and else none.
    pub fn eat(&mut self, kind: TokenKind) -> bool
        requires { kind ≢ End }
        ensures taken { OnTrue result (Eats kind self.old.rest.now self.new.rest.now) }
        ensures left { OnFalse result (self.new.rest.now ≡ self.old.rest.now) }
        ensures other { OnFalse result (first_token_kind self.old.rest.now ≢ kind) }
        ensures end { self.new.end ≡ self.old.end }
    {
        if let Some((next, rest)) = self.rest.split_first() {
            if next.kind == kind {
                self.rest = rest;
                return true;
            }
        }
        false
    }

    /// Takes the next token, which is to be of this kind. `Syntax` where it is not.
    pub fn expect(&mut self, kind: TokenKind) -> Result<Lexeme, Refusal>
        requires { kind ≢ End }
        ensures found { IfOk result (λ t. (self.old.rest.now ≡ t ∷ self.new.rest.now)
            × (t.kind ≡ kind)) }
        ensures only { (left : ℕ) → FindsRefusal (λ _. token kind) anything left result self.old.rest.now
            self.new.rest.now }
        ensures stuck { (left : ℕ) → Halts (λ _. token kind) left result self.old.rest.now
            self.new.rest.now }
        ensures end { self.new.end ≡ self.old.end }
    {
        match self.rest.split_first() {
            Some((next, rest)) => {
                if next.kind == kind {
                    self.rest = rest;
                    return Ok(*next);
                }
                Err(Refusal::Syntax)
            }
            None => Err(Refusal::Syntax),
        }
    }

    /// Takes a name. `Syntax` where another token is next.
    pub fn name(&mut self) -> Result<Lexeme, Refusal>
        ensures found { IfOk result (λ t. (self.old.rest.now ≡ t ∷ self.new.rest.now)
            × (t.kind ≡ Name)) }
        ensures only { (left : ℕ) → FindsRefusal (λ _. token Name) anything left result self.old.rest.now
            self.new.rest.now }
        ensures stuck { (left : ℕ) → Halts (λ _. token Name) left result self.old.rest.now
            self.new.rest.now }
        ensures end { self.new.end ≡ self.old.end }
    {
        self.expect(TokenKind::Name)
    }

    /// The end of the last token before here, of those from `start`.
    fn end_since(&self, start: &[Lexeme]) -> u32
        ensures { (t : _) (ts : _) → start.now ≡ (t ∷ ts) ++ self.now.rest.now
            → result ≡ end_of_tokens t.span.to ts }
    {
        let count = start.len().saturating_sub(self.rest.len());
        match start.get(count.saturating_sub(1)) {
            Some(last) => last.span.to,
            None => 0,
        }
    }

    /// The span of the tokens from `start` to here.
    pub fn span_since(&self, start: &[Lexeme]) -> Span
        ensures { (ts : _) → start.now ≡ ts ++ self.now.rest.now → IsSpanOf result ts }
    {
        if start.len() == self.rest.len() {
            return Span { from: 0, to: 0 };
        }
        let to = self.end_since(start);
        match start.first() {
            Some(first) => Span {
                from: first.span.from,
                to,
            },
            None => Span { from: 0, to: 0 },
        }
    }

    /// The expression of this form that stands from `start` to here.
    pub(crate) fn node(&self, start: &[Lexeme], form: RawForm) -> RawExpr
        ensures form { result.form ≡ form }
        ensures there { (t : _) (ts : _) → start.now ≡ (t ∷ ts) ++ self.now.rest.now
            → StandsAt result.at (t ∷ ts) }
        ensures span { (ts : _) → start.now ≡ ts ++ self.now.rest.now → IsSpanOf result.span ts }
    {
        let span = self.span_since(start);
        let at = match start.first() {
            Some(first) => first.at,
            None => self.end,
        };
        RawExpr { at, span, form }
    }
}
