//! Paths.

ghost use Rattle.std.specs.Prelude.{◌≡◌, ◌++◌, ℕ, IfOk};
ghost use Rattle.ar_lexer.specs.declared.token.TokenKind.TheVariants.{Name, Sign};
ghost use Rattle.ar_lexer.specs.declared.signs.TheConstants.{DOT};
ghost use Rattle.expression_grammar.specs.Words.{token, ◌▸◌, each, many, ReadsSome};
ghost use Rattle.expression_grammar.specs.Paths.{ReadsName, ReadsStart, ReadsPath};
ghost use Rattle.expression_grammar.specs.Texts.{path_tokens};
ghost use Rattle.expression_grammar.specs.Results.{TakesTokens, FindsRefusal, Halts, Spans, ends_path, is_name};

use crate::cursor::Parser;
use crate::lexeme::Refusal;
use crate::lists::{list_of, put};
use ar_base::NameId;
use ar_lexer::{TokenKind, signs, words};
use ar_syntax::{Path, PathStart};

impl<'a> Parser<'a> {
    /// Takes the start of a path: [ ( "owner" | "main" ) "." ].
    fn path_start(&mut self) -> Result<PathStart, Refusal>
        ensures found { TakesTokens ReadsStart result self.old.rest.now self.new.rest.now }
        ensures only { (left : ℕ) → FindsRefusal (λ _. ReadsSome ReadsStart) is_name left result self.old.rest.now
            self.new.rest.now }
        ensures stuck { (left : ℕ) → Halts (λ _. ReadsSome ReadsStart) left result self.old.rest.now
            self.new.rest.now }
        ensures end { self.new.end ≡ self.old.end }
    {
        if self.eat(TokenKind::Reserved(words::OWNER)) {
            self.expect(TokenKind::Sign(signs::DOT))?;
            return Ok(PathStart::Owner);
        }
        if self.eat(TokenKind::Reserved(words::MAIN)) {
            self.expect(TokenKind::Sign(signs::DOT))?;
            return Ok(PathStart::Main);
        }
        Ok(PathStart::Here)
    }

    /// Takes the names of a path behind its first: { "." name }.
    fn more_steps(&mut self, names: &mut Vec<NameId>) -> Result<(), Refusal>
        ensures found { IfOk result (λ _. (more : _) × (names.new.items ≡ names.old.items ++ more)
            × Spans (each (λ x. token (Sign DOT) ▸ ReadsName x) more) self.old.rest.now
            self.new.rest.now) }
        ensures only { (left : ℕ) → FindsRefusal (λ _. many (token (Sign DOT) ▸ token Name)) ends_path left
            result self.old.rest.now self.new.rest.now }
        ensures stuck { (left : ℕ) → Halts (λ _. many (token (Sign DOT) ▸ token Name)) left result
            self.old.rest.now self.new.rest.now }
        ensures end { self.new.end ≡ self.old.end }
    {
        while self.eat(TokenKind::Sign(signs::DOT)) {
            let name = self.name()?;
            put(names, name.name)?;
        }
        Ok(())
    }

    /// Takes a path: [ ( "owner" | "main" ) "." ] name { "." name }. `Syntax` stops at the first token that goes on with
    /// none, and `Memory` tells that memory was refused.
    pub fn path(&mut self) -> Result<Path, Refusal>
        ensures found { TakesTokens ReadsPath result self.old.rest.now self.new.rest.now }
        ensures only { (left : ℕ) → FindsRefusal (λ _. path_tokens) ends_path left result self.old.rest.now
            self.new.rest.now }
        ensures stuck { (left : ℕ) → Halts (λ _. path_tokens) left result self.old.rest.now
            self.new.rest.now }
        ensures end { self.new.end ≡ self.old.end }
    {
        let at = self.place();
        let start = self.path_start()?;
        let first = self.name()?;
        let mut names = list_of(self.alloc, first.name)?;
        self.more_steps(&mut names)?;
        Ok(Path { start, names, at })
    }
}
