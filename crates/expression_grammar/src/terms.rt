//! The parts of expressions that are one token long, and the forms of those that are longer.

ghost use Rattle.std.specs.Prelude.{◌≡◌, ◌≢◌, Option, IfOk, IfErr, IfSome, IfNone, true, false, Some};
ghost use Rattle.ar_lexer.specs.declared.token.TokenKind.TheVariants.{Sign, End};
ghost use Rattle.ar_lexer.specs.declared.signs.TheConstants.{PLUS, MINUS};
ghost use Rattle.expression_grammar.specs.Expressions.{sign_of};
ghost use Rattle.expression_grammar.specs.Chains.{separator_of, chain_of, IsConstant, opening_word, call_of, IsComparison};
ghost use Rattle.expression_grammar.specs.Results.{first_token_kind, Eats, is_relation, begins_term};
ghost use Rattle.expression_grammar.specs.declared.lexeme.Refusal.TheVariants.{Memory};
ghost use Rattle.expression_grammar.specs.Texts.{begins_constant, begins_call};

use crate::cursor::Parser;
use crate::lexeme::Refusal;
use crate::lists::in_box;
use ar_lexer::{TokenKind, signs, words};
use ar_syntax::{RawExpr, RawForm, RawRelation};

/// The chains of operands with one sign or word between them.
#[derive(Clone, Copy)]
pub(crate) enum Chain {
    /// `or`
    Any,
    /// `and`
    All,
    /// `*`
    Product,
}

/// The calls of operands in brackets.
#[derive(Clone, Copy)]
pub(crate) enum Call {
    /// `min`
    Least,
    /// `max`
    Greatest,
    /// `count`
    Count,
}

// What stands between the operands.
pub(crate) fn separator_of(chain: Chain) -> TokenKind
    ensures value { result ≡ separator_of chain }
    ensures some { result ≢ End }
{
    match chain {
        Chain::Any => TokenKind::Reserved(words::OR),
        Chain::All => TokenKind::Reserved(words::AND),
        Chain::Product => TokenKind::Sign(signs::STAR),
    }
}

// The form of a chain of these operands.
pub(crate) fn chain_of(chain: Chain, operands: Vec<RawExpr>) -> RawForm
    ensures { result ≡ chain_of chain operands }
{
    match chain {
        Chain::Any => RawForm::Any(operands),
        Chain::All => RawForm::All(operands),
        Chain::Product => RawForm::Product(operands),
    }
}

// The form of a call of these operands.
pub(crate) fn call_of(call: Call, operands: Vec<RawExpr>) -> RawForm
    ensures { result ≡ call_of call operands }
{
    match call {
        Call::Least => RawForm::Least(operands),
        Call::Greatest => RawForm::Greatest(operands),
        Call::Count => RawForm::Count(operands),
    }
}

// The relation of a sign.
fn relation_of(kind: TokenKind) -> Option<RawRelation>
    ensures found { IfSome result (λ r. kind ≡ Sign (sign_of r)) }
    ensures none { IfNone result (is_relation kind ≡ false) }
{
    let TokenKind::Sign(sign) = kind else {
        return None;
    };
    if sign == signs::EQUAL {
        return Some(RawRelation::Equal);
    }
    if sign == signs::DIFFERS {
        return Some(RawRelation::Differs);
    }
    if sign == signs::LESS {
        return Some(RawRelation::Less);
    }
    if sign == signs::AT_MOST {
        return Some(RawRelation::AtMost);
    }
    if sign == signs::MORE {
        return Some(RawRelation::More);
    }
    if sign == signs::AT_LEAST {
        return Some(RawRelation::AtLeast);
    }
    None
}

/// The constant that a token is.
pub(crate) fn constant_of(kind: TokenKind) -> Option<RawForm>
    ensures found { IfSome result (λ f. IsConstant f kind) }
    ensures none { IfNone result (begins_constant kind ≡ false) }
{
    match kind {
        TokenKind::Whole(n) => Some(RawForm::Whole(n)),
        TokenKind::Real => Some(RawForm::Real),
        TokenKind::Reserved(word) => {
            if word == words::TRUE {
                return Some(RawForm::Truth(true));
            }
            if word == words::FALSE {
                return Some(RawForm::Truth(false));
            }
            None
        }
        _ => None,
    }
}

/// The call that a token begins.
pub(crate) fn call_at(kind: TokenKind) -> Option<Call>
    ensures found { IfSome result (λ c. kind ≡ opening_word c) }
    ensures none { IfNone result (begins_call kind ≡ false) }
{
    let TokenKind::Reserved(word) = kind else {
        return None;
    };
    if word == words::MIN {
        return Some(Call::Least);
    }
    if word == words::MAX {
        return Some(Call::Greatest);
    }
    if word == words::COUNT {
        return Some(Call::Count);
    }
    None
}

impl<'a> Parser<'a> {
    /// Takes the next token.
    pub fn skip(&mut self)
        requires { first_token_kind self.old.rest.now ≢ End }
        ensures taken { Eats (first_token_kind self.old.rest.now) self.old.rest.now self.new.rest.now }
        ensures end { self.new.end ≡ self.old.end }
    {
        if let Some((_, rest)) = self.rest.split_first() {
            self.rest = rest;
        }
    }

    /// Takes a sign that compares.
    pub(crate) fn eat_relation(&mut self) -> Option<RawRelation>
        ensures taken { IfSome result (λ r.
            Eats (Sign (sign_of r)) self.old.rest.now self.new.rest.now) }
        ensures left { IfNone result (self.new.rest.now ≡ self.old.rest.now) }
        ensures other { IfNone result (is_relation (first_token_kind self.old.rest.now) ≡ false) }
        ensures end { self.new.end ≡ self.old.end }
    {
        let relation = relation_of(self.kind())?;
        self.skip();
        Some(relation)
    }

    /// Takes `+` or `-`: true for `+`.
    pub(crate) fn eat_plus(&mut self) -> Option<bool>
        ensures plus { result ≡ Some true → Eats (Sign PLUS) self.old.rest.now self.new.rest.now }
        ensures minus { result ≡ Some false
            → Eats (Sign MINUS) self.old.rest.now self.new.rest.now }
        ensures left { IfNone result (self.new.rest.now ≡ self.old.rest.now) }
        ensures other { IfNone result (begins_term (first_token_kind self.old.rest.now) ≡ false) }
        ensures end { self.new.end ≡ self.old.end }
    {
        if self.eat(TokenKind::Sign(signs::PLUS)) {
            return Some(true);
        }
        if self.eat(TokenKind::Sign(signs::MINUS)) {
            return Some(false);
        }
        None
    }

    /// Whether the next token is `+` or `-`.
    pub(crate) fn is_at_term(&self) -> bool
        ensures { result ≡ begins_term (first_token_kind self.now.rest.now) }
    {
        self.is_at(TokenKind::Sign(signs::PLUS)) || self.is_at(TokenKind::Sign(signs::MINUS))
    }

    /// The form of a comparison.
    pub(crate) fn compared(
        &self,
        relation: RawRelation,
        first: RawExpr,
        second: RawExpr,
    ) -> Result<RawForm, Refusal>
        ensures made { IfOk result (IsComparison relation first second) }
        ensures err { IfErr result (λ e. e ≡ Memory) }
    {
        let first = in_box(self.alloc, first)?;
        let second = in_box(self.alloc, second)?;
        Ok(RawForm::Compare(relation, first, second))
    }
}
