//! The tokens of a text, with the numbers of their names.

ghost use Rattle.std.specs.Prelude.{◌≡◌, ◌≢◌, ◌+◌, ◌-◌, ◌<◌, ◌≤◌, ◌^◌, [], ◌∷◌, ◌++◌, length, map, reverse, IfOk, IfErr};
ghost use Rattle.ar_base.specs.Counts.{limit_of};
ghost use Rattle.ar_base.specs.declared.counts.Count.TheVariants.{ModelBytes};
ghost use Rattle.ar_lexer.specs.declared.token.TokenKind.TheVariants.{Name};
ghost use Rattle.ar_parser.specs.declared.fault.ParseFault.TheVariants.{Lex, Memory};
ghost use Rattle.ar_parser.specs.Models.{token_of, IsNumbered, AreNamesNumbered, AreLexemes, HasFaultAt};
ghost use Rattle.ar_parser.specs.Names.{IsSpelled, AreSpelled, lexeme_of, lexical_fault};

use crate::fault::ParseFault;
use ar_base::{NameId, Names, Place};
use ar_lexer::{LexFault, Token, TokenKind, tokens};
use expression_grammar::Lexeme;
use std::alloc::Global;
use std::str::from_utf8_unchecked;

impl From<ar_base::Memory> for ParseFault {
    ghost from_gives = { λ _ e. e ≡ Memory };

    fn from(_refused: ar_base::Memory) -> Self {
        ParseFault::Memory
    }
}

/// The tokens of a text but for its end, with the numbers of their names, and the place of its end.
pub fn lexemes(
    alloc: Global,
    text: &[u8],
    names: &mut Names,
) -> Result<(Vec<Lexeme>, Place), ParseFault>
    requires size { length text.now ≤ limit_of ModelBytes }
    requires empty { names.old ≡ [] }
    ensures found { IfOk result (λ x. AreLexemes text.now x.0.items names.new x.1) }
    ensures fault { IfErr result (λ e. e ≢ Memory
        → (at : _) × (e ≡ Lex at) × HasFaultAt text.now at) }
{
    let mut all = match tokens(alloc, text) {
        Ok(all) => all,
        Err(fault) => return Err(lexical(fault)),
    };
    let end = all.pop().unwrap();
    all.reverse();
    let lexemes = numbered(alloc, text, all, names)?;
    Ok((lexemes, end.at))
}

/// The number of a name's text, which joins the table, and 0 for any other token.
fn number(text: &[u8], token: &Token, names: &mut Names) -> Result<NameId, ParseFault>
    requires spelled { token.now.kind ≡ Name → IsSpelled text.now token.now }
    requires room { length names.old < 2 ^ 32 - 1 }
    ensures found { IfOk result (λ id.
        IsNumbered text.now names.old (lexeme_of token.now id) names.new) }
    ensures fault { IfErr result (λ e. e ≡ Memory) }
{
    if token.kind != TokenKind::Name {
        return Ok(NameId::new(0));
    }
    let bytes = &text[token.span.from as usize..token.span.to as usize];
    // SAFETY: the bytes of a name are letters, digits and `_`.
    let name = unsafe { from_utf8_unchecked(bytes) };
    let id = names.intern(name)?;
    Ok(id)
}

/// The tokens, which are given last one first, with the numbers of their names. A token's room is given back once most are numbered.
fn numbered(
    alloc: Global,
    text: &[u8],
    mut left: Vec<Token>,
    names: &mut Names,
) -> Result<Vec<Lexeme>, ParseFault>
    requires spelled { AreSpelled text.now (reverse left.items) }
    requires room { length names.old + length (reverse left.items) < 2 ^ 32 }
    ensures found { IfOk result (λ ls. (map token_of ls.items ≡ reverse left.items)
        × AreNamesNumbered text.now names.old ls.items names.new) }
    ensures fault { IfErr result (λ e. e ≡ Memory) }
{
    let mut lexemes = Vec::new(alloc);
    while let Some(token) = left.pop() {
        let name = number(text, &token, names)?;
        lexemes.push(Lexeme {
            kind: token.kind,
            span: token.span,
            at: token.at,
            name,
        })?;
        if left.len() <= left.capacity() / 2 {
            left.shrink_to_fit();
        }
    }
    Ok(lexemes)
}

/// The refusal of a text that has no tokens.
fn lexical(fault: LexFault) -> ParseFault
    ensures { result ≡ lexical_fault fault }
{
    match fault {
        LexFault::Byte(at) | LexFault::OpenComment(at) | LexFault::Number(at) => ParseFault::Lex(
            at,
        ),
        LexFault::Memory => ParseFault::Memory,
    }
}
