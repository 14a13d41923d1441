//! Names with their places.

ghost use Rattle.std.specs.Prelude.{◌≡◌, ◌++◌, ℕ, IfOk};
ghost use Rattle.ar_lexer.specs.declared.token.TokenKind.TheVariants.{Name, Sign};
ghost use Rattle.ar_lexer.specs.declared.signs.TheConstants.{COMMA};
ghost use Rattle.expression_grammar.specs.Words.{token, ◌▸◌, each, many};
ghost use Rattle.expression_grammar.specs.Paths.{ReadsPlacedName, ReadsNames};
ghost use Rattle.expression_grammar.specs.Texts.{names_tokens};
ghost use Rattle.expression_grammar.specs.Results.{TakesTokens, FindsRefusal, Halts, Spans, anything};
ghost use Rattle.ar_grammar.specs.Results.{ends_names};

use ar_base::{NameId, Place};
use ar_lexer::{TokenKind, signs};
use expression_grammar::{Parser, Refusal, list_of, put};

/// Takes a name and gives its place too.
pub(crate) fn placed_name(parser: &mut Parser<'_>) -> Result<(NameId, Place), Refusal>
    ensures found { TakesTokens ReadsPlacedName result parser.old.rest.now parser.new.rest.now }
    ensures only { (left : ℕ) → FindsRefusal (λ _. token Name) anything left result parser.old.rest.now
        parser.new.rest.now }
    ensures stuck { (left : ℕ) → Halts (λ _. token Name) left result parser.old.rest.now
        parser.new.rest.now }
{
    let name = parser.name()?;
    Ok((name.name, name.at))
}

/// Takes the names behind the first: { "," name }.
fn more_names(parser: &mut Parser<'_>, names: &mut Vec<(NameId, Place)>) -> Result<(), Refusal>
    ensures found { IfOk result (λ _. (more : _) × (names.new.items ≡ names.old.items ++ more)
        × Spans (each (λ x. token (Sign COMMA) ▸ ReadsPlacedName x) more) parser.old.rest.now
        parser.new.rest.now) }
    ensures only { (left : ℕ) → FindsRefusal (λ _. many (token (Sign COMMA) ▸ token Name)) ends_names
        left result parser.old.rest.now parser.new.rest.now }
    ensures stuck { (left : ℕ) → Halts (λ _. many (token (Sign COMMA) ▸ token Name)) left result
        parser.old.rest.now parser.new.rest.now }
{
    while parser.eat(TokenKind::Sign(signs::COMMA)) {
        let name = placed_name(parser)?;
        put(names, name)?;
    }
    Ok(())
}

/// Takes names with commas between them: name { "," name }.
pub(crate) fn names(parser: &mut Parser<'_>) -> Result<Vec<(NameId, Place)>, Refusal>
    ensures found { TakesTokens (λ names. ReadsNames names.items) result parser.old.rest.now
        parser.new.rest.now }
    ensures only { (left : ℕ) → FindsRefusal (λ _. names_tokens) ends_names left result parser.old.rest.now
        parser.new.rest.now }
    ensures stuck { (left : ℕ) → Halts (λ _. names_tokens) left result parser.old.rest.now
        parser.new.rest.now }
{
    let first = placed_name(parser)?;
    let mut names = list_of(parser.alloc, first)?;
    more_names(parser, &mut names)?;
    Ok(names)
}
