//! Instructions.

ghost use Rattle.std.specs.Prelude.{◌≡◌, ◌++◌, IfOk, IfErr};
ghost use Rattle.ar_lexer.specs.declared.token.TokenKind.TheVariants.{Reserved};
ghost use Rattle.expression_grammar.specs.Words.{token, deep, ◌▸◌, each, many};
ghost use Rattle.ar_grammar.specs.Instructions.{ReadsInstr, ReadsElse};
ghost use Rattle.ar_grammar.specs.InstructionsInside.{ReadsConditional, ReadsGroup, ReadsSimple};
ghost use Rattle.ar_lexer.specs.declared.words.TheConstants.{ELSE};
ghost use Rattle.expression_grammar.specs.Texts.{expr_tokens};
ghost use Rattle.ar_grammar.specs.Texts.{instr_tokens, conditional_tokens, else_tokens, group_tokens, simple_tokens};
ghost use Rattle.expression_grammar.specs.Results.{first_token_kind, TakesTokens, FindsRefusal, Halts, Spans, anything};
ghost use Rattle.ar_grammar.specs.Results.{ends_group};

use crate::begins::begins_instr;
use ar_lexer::{TokenKind, signs, words};
use ar_syntax::Instr;
use expression_grammar::{Parser, Refusal, in_box, no_room, put};

/// Takes an instruction, with room for `left` open productions.
#[cycle(instruction)]
pub(crate) fn instr(parser: &mut Parser<'_>, left: u32) -> Result<Instr, Refusal>
    ensures found { TakesTokens (ReadsInstr left) result parser.old.rest.now parser.new.rest.now }
    ensures only { FindsRefusal (instr_tokens deep) anything left result parser.old.rest.now
        parser.new.rest.now }
    ensures stuck { Halts (instr_tokens deep) left result parser.old.rest.now parser.new.rest.now }
{
    if left == 0 {
        return Err(no_room(begins_instr(parser.kind())));
    }
    if parser.is_at(TokenKind::Reserved(words::IF)) {
        return conditional(parser, left - 1);
    }
    if parser.is_at(TokenKind::Sign(signs::OPEN_BRACE)) {
        return group(parser, left - 1);
    }
    simple(parser, left - 1)
}

/// Takes "if" Expr "then" Instr [ "else" Instr ].
#[cycle(instruction)]
fn conditional(parser: &mut Parser<'_>, left: u32) -> Result<Instr, Refusal>
    ensures found { TakesTokens (ReadsConditional left) result parser.old.rest.now parser.new.rest.now }
    ensures only { FindsRefusal (λ n. conditional_tokens (expr_tokens deep n) (instr_tokens deep n)) anything
        left result parser.old.rest.now parser.new.rest.now }
    ensures stuck { Halts (λ n. conditional_tokens (expr_tokens deep n) (instr_tokens deep n)) left
        result parser.old.rest.now parser.new.rest.now }
{
    let test = parser.enclosed(
        TokenKind::Reserved(words::IF),
        TokenKind::Reserved(words::THEN),
        left,
    )?;
    let yes = branch(parser, left)?;
    let no = other_branch(parser, left)?;
    Ok(Instr::If(test, yes, no))
}

/// Takes the instruction of a branch.
#[cycle(instruction)]
fn branch(parser: &mut Parser<'_>, left: u32) -> Result<Box<Instr>, Refusal>
    ensures found { TakesTokens (λ branch. ReadsInstr left branch.value) result parser.old.rest.now
        parser.new.rest.now }
    ensures only { FindsRefusal (instr_tokens deep) anything left result parser.old.rest.now
        parser.new.rest.now }
    ensures stuck { Halts (instr_tokens deep) left result parser.old.rest.now parser.new.rest.now }
{
    let inner = instr(parser, left)?;
    in_box(parser.alloc, inner)
}

/// Takes [ "else" Instr ].
#[cycle(instruction)]
fn other_branch(parser: &mut Parser<'_>, left: u32) -> Result<Option<Box<Instr>>, Refusal>
    ensures found { TakesTokens (ReadsElse (ReadsInstr left)) result parser.old.rest.now parser.new.rest.now }
    ensures only { FindsRefusal (λ n. else_tokens (instr_tokens deep n)) anything left result
        parser.old.rest.now parser.new.rest.now }
    ensures began { IfErr result (λ _. first_token_kind parser.old.rest.now ≡ Reserved ELSE) }
    ensures stuck { Halts (λ n. token (Reserved ELSE) ▸ instr_tokens deep n) left result
        parser.old.rest.now parser.new.rest.now }
{
    if parser.eat(TokenKind::Reserved(words::ELSE)) {
        let branch = branch(parser, left)?;
        return Ok(Some(branch));
    }
    Ok(None)
}

/// Takes "{" { Instr } "}".
#[cycle(instruction)]
fn group(parser: &mut Parser<'_>, left: u32) -> Result<Instr, Refusal>
    ensures found { TakesTokens (ReadsGroup left) result parser.old.rest.now parser.new.rest.now }
    ensures only { FindsRefusal (λ n. group_tokens (instr_tokens deep n)) anything left result
        parser.old.rest.now parser.new.rest.now }
    ensures stuck { Halts (λ n. group_tokens (instr_tokens deep n)) left result parser.old.rest.now
        parser.new.rest.now }
{
    parser.expect(TokenKind::Sign(signs::OPEN_BRACE))?;
    let mut instrs = Vec::new(parser.alloc);
    more_instrs(parser, left, &mut instrs)?;
    parser.expect(TokenKind::Sign(signs::CLOSE_BRACE))?;
    Ok(Instr::All(instrs))
}

/// Takes the instructions of a group: { Instr }.
#[cycle(instruction)]
fn more_instrs(parser: &mut Parser<'_>, left: u32, instrs: &mut Vec<Instr>) -> Result<(), Refusal>
    ensures found { IfOk result (λ _. (more : _) × (instrs.new.items ≡ instrs.old.items ++ more)
        × Spans (each (ReadsInstr left) more) parser.old.rest.now parser.new.rest.now) }
    ensures only { FindsRefusal (λ n. many (instr_tokens deep n)) ends_group left result
        parser.old.rest.now parser.new.rest.now }
    ensures stuck { Halts (λ n. many (instr_tokens deep n)) left result parser.old.rest.now
        parser.new.rest.now }
{
    while !parser.is_at(TokenKind::Sign(signs::CLOSE_BRACE)) {
        let inner = instr(parser, left)?;
        put(instrs, inner)?;
    }
    Ok(())
}

/// Takes Path ( ":=" Expr | ":=:" Path ) ";" or "skip" ";".
fn simple(parser: &mut Parser<'_>, left: u32) -> Result<Instr, Refusal>
    ensures found { TakesTokens (ReadsSimple left) result parser.old.rest.now parser.new.rest.now }
    ensures only { FindsRefusal (λ n. simple_tokens (expr_tokens deep n)) anything left result
        parser.old.rest.now parser.new.rest.now }
    ensures stuck { Halts (λ n. simple_tokens (expr_tokens deep n)) left result parser.old.rest.now
        parser.new.rest.now }
{
    if parser.eat(TokenKind::Reserved(words::SKIP)) {
        parser.expect(TokenKind::Sign(signs::SEMICOLON))?;
        return Ok(Instr::Skip);
    }
    let path = parser.path()?;
    if parser.is_at(TokenKind::Sign(signs::TIE)) {
        parser.expect(TokenKind::Sign(signs::TIE))?;
        let other = parser.path()?;
        parser.expect(TokenKind::Sign(signs::SEMICOLON))?;
        return Ok(Instr::Tie(path, other));
    }
    let value = parser.enclosed(
        TokenKind::Sign(signs::ASSIGN),
        TokenKind::Sign(signs::SEMICOLON),
        left,
    )?;
    Ok(Instr::Assign(path, value))
}
