//! The parts of members: types, settings, declarations, events, parts and transitions.

ghost use Rattle.std.specs.Prelude.{◌≡◌, ◌++◌, ℕ, IfOk, if◌then◌else◌};
ghost use Rattle.ar_lexer.specs.declared.token.TokenKind.TheVariants.{Name, Sign, Reserved};
ghost use Rattle.ar_lexer.specs.declared.signs.TheConstants.{COMMA, SEMICOLON, DOT, AMPERSAND, EXCLAMATION, QUESTION};
ghost use Rattle.ar_lexer.specs.declared.words.TheConstants.{EVENT, HIDE};
ghost use Rattle.expression_grammar.specs.Words.{token, deep, ◌▸◌, between, each, many, separated_by};
ghost use Rattle.ar_grammar.specs.Members.{ReadsType, ReadsWord, ReadsSetting, ReadsSettings, ReadsDeclared, ReadsEvent, ReadsHidden, ReadsPart, ReadsTransition, ReadsAssertion};
ghost use Rattle.expression_grammar.specs.Texts.{one_of, list_of, path_tokens, expr_tokens};
ghost use Rattle.ar_grammar.specs.Texts.{is_type, is_target_word, setting_tokens, settings_tokens, declared_rest, instr_tokens, is_part};
ghost use Rattle.ar_grammar.specs.Parts.{event_tokens, part_tokens, parts_tokens, transition_form};
ghost use Rattle.expression_grammar.specs.Results.{first_token_kind, TakesTokens, FindsRefusal, Halts, Spans, anything, ends_path, ends_expr, ends_list};
ghost use Rattle.ar_grammar.specs.Results.{ends_attribute, ends_semicolon, ends_target, ends_transitions, ends_assertions, begins_part};

use crate::begins::begins_instr;
use crate::instructions::instr;
use crate::names::{names, placed_name};
use crate::unread::attribute;
use ar_lexer::{TokenKind, signs, words};
use ar_syntax::{Member, Part, Setting, TypeForm, TypeName, Word};
use expression_grammar::{Parser, Refusal, list_of, put};

/// Takes a type: "Boolean" | "Integer" | name.
pub(crate) fn type_name(parser: &mut Parser<'_>) -> Result<TypeName, Refusal>
    ensures found { TakesTokens ReadsType result parser.old.rest.now parser.new.rest.now }
    ensures only { (left : ℕ) → FindsRefusal (λ _. one_of is_type) anything left result
        parser.old.rest.now parser.new.rest.now }
    ensures stuck { (left : ℕ) → Halts (λ _. one_of is_type) left result parser.old.rest.now
        parser.new.rest.now }
{
    let at = parser.place();
    if parser.eat(TokenKind::Reserved(words::BOOLEAN)) {
        return Ok(TypeName {
            form: TypeForm::Boolean,
            at,
        });
    }
    if parser.eat(TokenKind::Reserved(words::INTEGER)) {
        return Ok(TypeName {
            form: TypeForm::Integer,
            at,
        });
    }
    let name = parser.name()?;
    Ok(TypeName {
        form: TypeForm::Named(name.name),
        at,
    })
}

/// Takes a word of a target: name | "init" | "reset".
fn word(parser: &mut Parser<'_>) -> Result<Word, Refusal>
    ensures found { TakesTokens ReadsWord result parser.old.rest.now parser.new.rest.now }
    ensures only { (left : ℕ) → FindsRefusal (λ _. one_of is_target_word) anything left result
        parser.old.rest.now parser.new.rest.now }
    ensures stuck { (left : ℕ) → Halts (λ _. one_of is_target_word) left result
        parser.old.rest.now parser.new.rest.now }
{
    if parser.eat(TokenKind::Reserved(words::INIT)) {
        return Ok(Word::Init);
    }
    if parser.eat(TokenKind::Reserved(words::RESET)) {
        return Ok(Word::Reset);
    }
    let name = parser.name()?;
    Ok(Word::Name(name.name))
}

/// Takes { "." Word }.
fn more_words(parser: &mut Parser<'_>, target: &mut Vec<Word>) -> Result<(), Refusal>
    ensures found { IfOk result (λ _. (more : _) × (target.new.items ≡ target.old.items ++ more)
        × Spans (each (λ w. token (Sign DOT) ▸ ReadsWord w) more) parser.old.rest.now
        parser.new.rest.now) }
    ensures only { (left : ℕ) → FindsRefusal (λ _. many (token (Sign DOT) ▸ one_of is_target_word))
        ends_target left result parser.old.rest.now parser.new.rest.now }
    ensures stuck { (left : ℕ) → Halts (λ _. many (token (Sign DOT) ▸ one_of is_target_word))
        left result parser.old.rest.now parser.new.rest.now }
{
    while parser.eat(TokenKind::Sign(signs::DOT)) {
        let word = word(parser)?;
        put(target, word)?;
    }
    Ok(())
}

/// Takes the target of a setting: Word { "." Word }.
fn target(parser: &mut Parser<'_>) -> Result<Vec<Word>, Refusal>
    ensures found { TakesTokens (λ target. separated_by (Sign DOT) ReadsWord target.items) result
        parser.old.rest.now parser.new.rest.now }
    ensures only { (left : ℕ) → FindsRefusal (λ _. list_of (Sign DOT) (one_of is_target_word))
        ends_target left result parser.old.rest.now parser.new.rest.now }
    ensures stuck { (left : ℕ) → Halts (λ _. list_of (Sign DOT) (one_of is_target_word)) left
        result parser.old.rest.now parser.new.rest.now }
{
    let first = word(parser)?;
    let mut target = list_of(parser.alloc, first)?;
    more_words(parser, &mut target)?;
    Ok(target)
}

/// Takes Word { "." Word } "=" Expr.
fn setting(parser: &mut Parser<'_>, left: u32) -> Result<Setting, Refusal>
    ensures found { TakesTokens (ReadsSetting left) result parser.old.rest.now parser.new.rest.now }
    ensures only { FindsRefusal (λ n. setting_tokens (expr_tokens deep n)) ends_expr left result
        parser.old.rest.now parser.new.rest.now }
    ensures stuck { Halts (λ n. setting_tokens (expr_tokens deep n)) left result parser.old.rest.now
        parser.new.rest.now }
{
    let at = parser.place();
    let target = target(parser)?;
    parser.expect(TokenKind::Sign(signs::EQUALS))?;
    let value = parser.expr(left)?;
    Ok(Setting { target, at, value })
}

/// Takes { "," Setting }.
fn more_settings(
    parser: &mut Parser<'_>,
    left: u32,
    settings: &mut Vec<Setting>,
) -> Result<(), Refusal>
    ensures found { IfOk result (λ _. (more : _)
        × (settings.new.items ≡ settings.old.items ++ more)
        × Spans (each (λ s. token (Sign COMMA) ▸ ReadsSetting left s) more) parser.old.rest.now
        parser.new.rest.now) }
    ensures only { FindsRefusal (λ n. many (token (Sign COMMA) ▸ setting_tokens (expr_tokens deep n)))
        ends_list left result parser.old.rest.now parser.new.rest.now }
    ensures stuck { Halts (λ n. many (token (Sign COMMA) ▸ setting_tokens (expr_tokens deep n)))
        left result parser.old.rest.now parser.new.rest.now }
{
    while parser.eat(TokenKind::Sign(signs::COMMA)) {
        let setting = setting(parser, left)?;
        put(settings, setting)?;
    }
    Ok(())
}

/// Takes [ "(" Setting { "," Setting } ")" ].
fn settings(parser: &mut Parser<'_>, left: u32) -> Result<Vec<Setting>, Refusal>
    ensures found { TakesTokens (λ settings. ReadsSettings left settings.items) result parser.old.rest.now
        parser.new.rest.now }
    ensures only { FindsRefusal (λ n. settings_tokens (expr_tokens deep n)) ends_attribute left result
        parser.old.rest.now parser.new.rest.now }
    ensures stuck { Halts (λ n. settings_tokens (expr_tokens deep n)) left result parser.old.rest.now
        parser.new.rest.now }
{
    if !parser.is_at(TokenKind::Sign(signs::OPEN_PARENTHESIS)) {
        return Ok(Vec::new(parser.alloc));
    }
    parser.expect(TokenKind::Sign(signs::OPEN_PARENTHESIS))?;
    let first = setting(parser, left)?;
    let mut settings = list_of(parser.alloc, first)?;
    more_settings(parser, left, &mut settings)?;
    parser.expect(TokenKind::Sign(signs::CLOSE_PARENTHESIS))?;
    Ok(settings)
}

/// Takes a declaration: Type Names [ Settings ] ";".
pub(crate) fn declaration(parser: &mut Parser<'_>, left: u32) -> Result<Member, Refusal>
    ensures found { TakesTokens (ReadsDeclared left) result parser.old.rest.now parser.new.rest.now }
    ensures only { FindsRefusal (λ n. one_of is_type ▸ declared_rest (expr_tokens deep n)) anything left
        result parser.old.rest.now parser.new.rest.now }
    ensures stuck { Halts (λ n. one_of is_type ▸ declared_rest (expr_tokens deep n)) left result
        parser.old.rest.now parser.new.rest.now }
{
    let of_type = type_name(parser)?;
    let names = names(parser)?;
    let settings = settings(parser, left)?;
    parser.expect(TokenKind::Sign(signs::SEMICOLON))?;
    Ok(Member::Declare(of_type, names, settings))
}

/// Takes name [ "(" Unread ")" ].
fn event(parser: &mut Parser<'_>, left: u32) -> Result<Member, Refusal>
    ensures found { TakesTokens (ReadsEvent left) result parser.old.rest.now parser.new.rest.now }
    ensures only { FindsRefusal event_tokens ends_attribute left result parser.old.rest.now
        parser.new.rest.now }
    ensures stuck { Halts event_tokens left result parser.old.rest.now parser.new.rest.now }
{
    let (name, at) = placed_name(parser)?;
    let attribute = attribute(parser, left)?;
    Ok(Member::Event(name, at, attribute))
}

/// Takes { "," Event }.
fn more_events(parser: &mut Parser<'_>, left: u32, members: &mut Vec<Member>) -> Result<(), Refusal>
    ensures found { IfOk result (λ _. (more : _)
        × (members.new.items ≡ members.old.items ++ more)
        × Spans (each (λ m. token (Sign COMMA) ▸ ReadsEvent left m) more) parser.old.rest.now
        parser.new.rest.now) }
    ensures only { FindsRefusal (λ n. many (token (Sign COMMA) ▸ event_tokens n)) ends_semicolon left
        result parser.old.rest.now parser.new.rest.now }
    ensures stuck { Halts (λ n. many (token (Sign COMMA) ▸ event_tokens n)) left result
        parser.old.rest.now parser.new.rest.now }
{
    while parser.eat(TokenKind::Sign(signs::COMMA)) {
        let event = event(parser, left)?;
        put(members, event)?;
    }
    Ok(())
}

/// Takes "event" Event { "," Event } ";".
pub(crate) fn events(
    parser: &mut Parser<'_>,
    left: u32,
    members: &mut Vec<Member>,
) -> Result<(), Refusal>
    ensures found { IfOk result (λ _. (ms : _) × (members.new.items ≡ members.old.items ++ ms)
        × Spans (between (Reserved EVENT) (Sign SEMICOLON)
        (separated_by (Sign COMMA) (ReadsEvent left) ms)) parser.old.rest.now parser.new.rest.now) }
    ensures only { FindsRefusal (λ n. between (Reserved EVENT) (Sign SEMICOLON)
        (list_of (Sign COMMA) (event_tokens n))) anything left result parser.old.rest.now
        parser.new.rest.now }
    ensures stuck { Halts (λ n. between (Reserved EVENT) (Sign SEMICOLON)
        (list_of (Sign COMMA) (event_tokens n))) left result parser.old.rest.now parser.new.rest.now }
{
    parser.expect(TokenKind::Reserved(words::EVENT))?;
    let first = event(parser, left)?;
    put(members, first)?;
    more_events(parser, left, members)?;
    parser.expect(TokenKind::Sign(signs::SEMICOLON))?;
    Ok(())
}

/// Takes the path of a hidden event.
fn hidden(parser: &mut Parser<'_>) -> Result<Member, Refusal>
    ensures found { TakesTokens ReadsHidden result parser.old.rest.now parser.new.rest.now }
    ensures only { (left : ℕ) → FindsRefusal (λ _. path_tokens) ends_path left result parser.old.rest.now
        parser.new.rest.now }
    ensures stuck { (left : ℕ) → Halts (λ _. path_tokens) left result parser.old.rest.now
        parser.new.rest.now }
{
    let path = parser.path()?;
    Ok(Member::Hide(path))
}

/// Takes { "," Path }.
fn more_hidden(parser: &mut Parser<'_>, members: &mut Vec<Member>) -> Result<(), Refusal>
    ensures found { IfOk result (λ _. (more : _)
        × (members.new.items ≡ members.old.items ++ more)
        × Spans (each (λ m. token (Sign COMMA) ▸ ReadsHidden m) more) parser.old.rest.now
        parser.new.rest.now) }
    ensures only { (left : ℕ) → FindsRefusal (λ _. many (token (Sign COMMA) ▸ path_tokens))
        ends_semicolon left result parser.old.rest.now parser.new.rest.now }
    ensures stuck { (left : ℕ) → Halts (λ _. many (token (Sign COMMA) ▸ path_tokens)) left result
        parser.old.rest.now parser.new.rest.now }
{
    while parser.eat(TokenKind::Sign(signs::COMMA)) {
        let hidden = hidden(parser)?;
        put(members, hidden)?;
    }
    Ok(())
}

/// Takes "hide" Path { "," Path } ";".
pub(crate) fn hides(parser: &mut Parser<'_>, members: &mut Vec<Member>) -> Result<(), Refusal>
    ensures found { IfOk result (λ _. (ms : _) × (members.new.items ≡ members.old.items ++ ms)
        × Spans (between (Reserved HIDE) (Sign SEMICOLON) (separated_by (Sign COMMA) ReadsHidden ms))
        parser.old.rest.now parser.new.rest.now) }
    ensures only { (left : ℕ) → FindsRefusal
        (λ _. between (Reserved HIDE) (Sign SEMICOLON) (list_of (Sign COMMA) path_tokens))
        anything left result parser.old.rest.now parser.new.rest.now }
    ensures stuck { (left : ℕ) → Halts
        (λ _. between (Reserved HIDE) (Sign SEMICOLON) (list_of (Sign COMMA) path_tokens)) left
        result parser.old.rest.now parser.new.rest.now }
{
    parser.expect(TokenKind::Reserved(words::HIDE))?;
    let first = hidden(parser)?;
    put(members, first)?;
    more_hidden(parser, members)?;
    parser.expect(TokenKind::Sign(signs::SEMICOLON))?;
    Ok(())
}

/// Takes "!" or "?": true for "!".
fn must(parser: &mut Parser<'_>) -> Result<bool, Refusal>
    ensures found { TakesTokens (λ must. token (Sign (if must then EXCLAMATION else QUESTION))) result
        parser.old.rest.now parser.new.rest.now }
    ensures only { (left : ℕ) → FindsRefusal (λ _. one_of is_part) anything left result
        parser.old.rest.now parser.new.rest.now }
    ensures stuck { (left : ℕ) → Halts (λ _. one_of is_part) left result parser.old.rest.now
        parser.new.rest.now }
{
    if parser.eat(TokenKind::Sign(signs::EXCLAMATION)) {
        return Ok(true);
    }
    parser.expect(TokenKind::Sign(signs::QUESTION))?;
    Ok(false)
}

/// Takes ( "!" | "?" ) Path.
fn part(parser: &mut Parser<'_>) -> Result<Part, Refusal>
    ensures found { TakesTokens ReadsPart result parser.old.rest.now parser.new.rest.now }
    ensures only { (left : ℕ) → FindsRefusal (λ _. part_tokens) ends_path left result parser.old.rest.now
        parser.new.rest.now }
    ensures stuck { (left : ℕ) → Halts (λ _. part_tokens) left result parser.old.rest.now
        parser.new.rest.now }
{
    let must = must(parser)?;
    let event = parser.path()?;
    Ok(Part { must, event })
}

/// Takes { "&" Part }.
fn more_parts(parser: &mut Parser<'_>, parts: &mut Vec<Part>) -> Result<(), Refusal>
    ensures found { IfOk result (λ _. (more : _) × (parts.new.items ≡ parts.old.items ++ more)
        × Spans (each (λ p. token (Sign AMPERSAND) ▸ ReadsPart p) more) parser.old.rest.now
        parser.new.rest.now) }
    ensures only { (left : ℕ) → FindsRefusal (λ _. many (token (Sign AMPERSAND) ▸ part_tokens))
        ends_semicolon left result parser.old.rest.now parser.new.rest.now }
    ensures stuck { (left : ℕ) → Halts (λ _. many (token (Sign AMPERSAND) ▸ part_tokens)) left
        result parser.old.rest.now parser.new.rest.now }
{
    while parser.eat(TokenKind::Sign(signs::AMPERSAND)) {
        let part = part(parser)?;
        put(parts, part)?;
    }
    Ok(())
}

/// Takes Part { "&" Part } ";".
fn parts(parser: &mut Parser<'_>) -> Result<Vec<Part>, Refusal>
    ensures found { TakesTokens (λ parts. separated_by (Sign AMPERSAND) ReadsPart parts.items
        ▸ token (Sign SEMICOLON)) result parser.old.rest.now parser.new.rest.now }
    ensures only { (left : ℕ) → FindsRefusal (λ _. parts_tokens) anything left result parser.old.rest.now
        parser.new.rest.now }
    ensures stuck { (left : ℕ) → Halts (λ _. parts_tokens) left result parser.old.rest.now
        parser.new.rest.now }
{
    let first = part(parser)?;
    let mut parts = list_of(parser.alloc, first)?;
    more_parts(parser, &mut parts)?;
    parser.expect(TokenKind::Sign(signs::SEMICOLON))?;
    Ok(parts)
}

/// Whether the next token begins a part.
fn is_at_part(parser: &Parser<'_>) -> bool
    ensures { result ≡ begins_part (first_token_kind parser.now.rest.now) }
{
    parser.is_at(TokenKind::Sign(signs::EXCLAMATION))
        || parser.is_at(TokenKind::Sign(signs::QUESTION))
}

/// Takes name ":" ( Part { "&" Part } ";" | Expr "->" Instr ).
fn transition(parser: &mut Parser<'_>, left: u32) -> Result<Member, Refusal>
    ensures found { TakesTokens (ReadsTransition left) result parser.old.rest.now parser.new.rest.now }
    ensures only { FindsRefusal transition_form anything left result parser.old.rest.now
        parser.new.rest.now }
    ensures stuck { Halts transition_form left result parser.old.rest.now parser.new.rest.now }
{
    let (name, at) = placed_name(parser)?;
    parser.expect(TokenKind::Sign(signs::COLON))?;
    if is_at_part(parser) {
        let parts = parts(parser)?;
        return Ok(Member::Sync(name, at, parts));
    }
    let guard = parser.expr(left)?;
    parser.expect(TokenKind::Sign(signs::ARROW))?;
    let action = instr(parser, left)?;
    Ok(Member::Local(name, at, guard, action))
}

/// Takes { Transition }.
pub(crate) fn transitions(
    parser: &mut Parser<'_>,
    left: u32,
    members: &mut Vec<Member>,
) -> Result<(), Refusal>
    ensures found { IfOk result (λ _. (more : _)
        × (members.new.items ≡ members.old.items ++ more)
        × Spans (each (ReadsTransition left) more) parser.old.rest.now parser.new.rest.now) }
    ensures only { FindsRefusal (λ n. many (transition_form n)) ends_transitions left result
        parser.old.rest.now parser.new.rest.now }
    ensures stuck { Halts (λ n. many (transition_form n)) left result parser.old.rest.now
        parser.new.rest.now }
{
    while parser.is_at(TokenKind::Name) {
        let transition = transition(parser, left)?;
        put(members, transition)?;
    }
    Ok(())
}

/// Takes the instructions of an assertion: { Instr }.
pub(crate) fn assertions(
    parser: &mut Parser<'_>,
    left: u32,
    members: &mut Vec<Member>,
) -> Result<(), Refusal>
    ensures found { IfOk result (λ _. (more : _)
        × (members.new.items ≡ members.old.items ++ more)
        × Spans (each (ReadsAssertion left) more) parser.old.rest.now parser.new.rest.now) }
    ensures only { FindsRefusal (λ n. many (instr_tokens deep n)) ends_assertions left result
        parser.old.rest.now parser.new.rest.now }
    ensures stuck { Halts (λ n. many (instr_tokens deep n)) left result parser.old.rest.now
        parser.new.rest.now }
{
    while begins_instr(parser.kind()) {
        let instr = instr(parser, left)?;
        put(members, Member::Assert(instr))?;
    }
    Ok(())
}
