//! Clauses, sections and bodies.

ghost use Rattle.std.specs.Prelude.{◌≡◌, ◌≢◌, ◌++◌, ℕ, IfOk};
ghost use Rattle.ar_lexer.specs.declared.token.TokenKind.TheVariants.{Name, Sign, Reserved, End};
ghost use Rattle.ar_lexer.specs.declared.signs.TheConstants.{SEMICOLON, EQUALS};
ghost use Rattle.ar_lexer.specs.declared.words.TheConstants.{AS};
ghost use Rattle.expression_grammar.specs.Words.{token, deep, ◌▸◌, between, many, groups};
ghost use Rattle.expression_grammar.specs.Paths.{ReadsPath, ReadsPlacedName};
ghost use Rattle.expression_grammar.specs.Expressions.{Node, ReadsExpr};
ghost use Rattle.ar_grammar.specs.Members.{ReadsType, ReadsSingle, ReadsKeyed, ReadsUnit, ReadsMember, ReadsSection, ReadsLater, ReadsSections, ReadsBody, kept};
ghost use Rattle.ar_grammar.specs.Texts.{body_tokens};
ghost use Rattle.ar_grammar.specs.Parts.{alias_tokens, value_tokens, single_tokens, parameter_tokens, section_of, unit_of, member_tokens, keyed_of, sections_tokens, later_tokens};
ghost use Rattle.expression_grammar.specs.Results.{TakesTokens, FindsRefusal, Halts, Spans, anything};
ghost use Rattle.ar_grammar.specs.Results.{ends_body, ends_members, ends_section};

use crate::begins::{begins_body, begins_later, begins_member, begins_section};
use crate::members::{assertions, declaration, events, hides, transitions, type_name};
use crate::names::placed_name;
use crate::unread::kept;
use ar_base::{NameId, Place};
use ar_lexer::{TokenKind, signs, words};
use ar_syntax::{Member, Path, RawExpr, TypeName, Unit};
use expression_grammar::{Parser, Refusal, no_room, put};

/// Takes name Body "end".
#[cycle(body)]
pub(crate) fn unit(parser: &mut Parser<'_>, left: u32) -> Result<Unit, Refusal>
    ensures found { TakesTokens (ReadsUnit (ReadsBody left)) result parser.old.rest.now parser.new.rest.now }
    ensures only { FindsRefusal unit_of anything left result parser.old.rest.now parser.new.rest.now }
    ensures stuck { Halts unit_of left result parser.old.rest.now parser.new.rest.now }
{
    let (name, at) = placed_name(parser)?;
    let members = body(parser, left)?;
    parser.expect(TokenKind::Reserved(words::END))?;
    Ok(Unit { name, at, members })
}

/// Takes a name between two tokens.
fn enclosed_name(
    parser: &mut Parser<'_>,
    opens: TokenKind,
    closes: TokenKind,
) -> Result<(NameId, Place), Refusal>
    requires opens { opens ≢ End }
    requires closes { closes ≢ End }
    ensures found { TakesTokens (λ x. between opens closes (ReadsPlacedName x)) result parser.old.rest.now
        parser.new.rest.now }
    ensures only { (left : ℕ) → FindsRefusal (λ _. between opens closes (token Name)) anything left
        result parser.old.rest.now parser.new.rest.now }
    ensures stuck { (left : ℕ) → Halts (λ _. between opens closes (token Name)) left result
        parser.old.rest.now parser.new.rest.now }
{
    parser.expect(opens)?;
    let name = placed_name(parser)?;
    parser.expect(closes)?;
    Ok(name)
}

/// Takes a word, a path and "as" name ";".
fn aliased(parser: &mut Parser<'_>, word: u8) -> Result<(Path, NameId, Place), Refusal>
    ensures found { TakesTokens (λ x. token (Reserved word) ▸ ReadsPath x.0
        ▸ between (Reserved AS) (Sign SEMICOLON) (ReadsPlacedName (x.1, x.2))) result
        parser.old.rest.now parser.new.rest.now }
    ensures only { (left : ℕ) → FindsRefusal (λ _. token (Reserved word) ▸ alias_tokens) anything left
        result parser.old.rest.now parser.new.rest.now }
    ensures stuck { (left : ℕ) → Halts (λ _. token (Reserved word) ▸ alias_tokens) left result
        parser.old.rest.now parser.new.rest.now }
{
    parser.expect(TokenKind::Reserved(word))?;
    let path = parser.path()?;
    let (name, at) = enclosed_name(
        parser,
        TokenKind::Reserved(words::AS),
        TokenKind::Sign(signs::SEMICOLON),
    )?;
    Ok((path, name, at))
}

/// Takes Type name "=" Expr ";".
fn valued(parser: &mut Parser<'_>, left: u32) -> Result<(TypeName, NameId, Place, RawExpr), Refusal>
    ensures found { TakesTokens (λ x. ReadsType x.0 ▸ ReadsPlacedName (x.1, x.2)
        ▸ between (Sign EQUALS) (Sign SEMICOLON) (Node (ReadsExpr left) x.3)) result
        parser.old.rest.now parser.new.rest.now }
    ensures only { FindsRefusal value_tokens anything left result parser.old.rest.now parser.new.rest.now }
    ensures stuck { Halts value_tokens left result parser.old.rest.now parser.new.rest.now }
{
    let of_type = type_name(parser)?;
    let (name, at) = placed_name(parser)?;
    let value = parser.enclosed(
        TokenKind::Sign(signs::EQUALS),
        TokenKind::Sign(signs::SEMICOLON),
        left,
    )?;
    Ok((of_type, name, at, value))
}

/// Takes a clause that begins with a reserved word and makes one member.
fn single(parser: &mut Parser<'_>, left: u32) -> Result<Member, Refusal>
    ensures found { TakesTokens (ReadsSingle left) result parser.old.rest.now parser.new.rest.now }
    ensures only { FindsRefusal single_tokens anything left result parser.old.rest.now parser.new.rest.now }
    ensures stuck { Halts single_tokens left result parser.old.rest.now parser.new.rest.now }
{
    if parser.is_at(TokenKind::Reserved(words::EXTENDS)) {
        let (base, at) = enclosed_name(
            parser,
            TokenKind::Reserved(words::EXTENDS),
            TokenKind::Sign(signs::SEMICOLON),
        )?;
        return Ok(Member::Extends(base, at));
    }
    if parser.is_at(TokenKind::Reserved(words::BOOLEAN)) {
        return declaration(parser, left);
    }
    if parser.is_at(TokenKind::Reserved(words::CLONES)) {
        let (path, name, at) = aliased(parser, words::CLONES)?;
        return Ok(Member::Clones(path, name, at));
    }
    if parser.is_at(TokenKind::Reserved(words::EMBEDS)) {
        let (target, name, at) = aliased(parser, words::EMBEDS)?;
        return Ok(Member::Embeds(target, name, at));
    }
    if parser.eat(TokenKind::Reserved(words::OBSERVER)) {
        let (of_type, name, at, value) = valued(parser, left)?;
        return Ok(Member::Observer(of_type, name, at, value));
    }
    parameter(parser, left)
}

/// Takes "parameter" ( "Real" name "=" Kept | Type name "=" Expr ) ";".
fn parameter(parser: &mut Parser<'_>, left: u32) -> Result<Member, Refusal>
    ensures found { TakesTokens (ReadsSingle left) result parser.old.rest.now parser.new.rest.now }
    ensures only { FindsRefusal parameter_tokens anything left result parser.old.rest.now
        parser.new.rest.now }
    ensures stuck { Halts parameter_tokens left result parser.old.rest.now parser.new.rest.now }
{
    parser.expect(TokenKind::Reserved(words::PARAMETER))?;
    if parser.is_at(TokenKind::Reserved(words::REAL)) {
        parser.expect(TokenKind::Reserved(words::REAL))?;
        let (kept_name, at) = placed_name(parser)?;
        parser.expect(TokenKind::Sign(signs::EQUALS))?;
        let span = kept(parser, left)?;
        parser.expect(TokenKind::Sign(signs::SEMICOLON))?;
        return Ok(Member::Kept(kept_name, at, span));
    }
    let (of_type, name, at, value) = valued(parser, left)?;
    Ok(Member::Parameter(of_type, name, at, value))
}

/// Takes one transition section or assertion section.
fn section(parser: &mut Parser<'_>, left: u32, members: &mut Vec<Member>) -> Result<(), Refusal>
    ensures found { IfOk result (λ _. (ms : _) × (members.new.items ≡ members.old.items ++ ms)
        × Spans (ReadsSection left ms) parser.old.rest.now parser.new.rest.now) }
    ensures only { FindsRefusal section_of ends_section left result parser.old.rest.now
        parser.new.rest.now }
    ensures stuck { Halts section_of left result parser.old.rest.now parser.new.rest.now }
{
    if parser.eat(TokenKind::Reserved(words::TRANSITION)) {
        transitions(parser, left, members)?;
        return Ok(());
    }
    parser.expect(TokenKind::Reserved(words::ASSERTION))?;
    assertions(parser, left, members)?;
    Ok(())
}

/// Takes a body, with room for `left` open productions: { Member } [ Section { Section | Keyed } ].
#[cycle(body)]
fn body(parser: &mut Parser<'_>, left: u32) -> Result<Vec<Member>, Refusal>
    ensures found { TakesTokens (λ members. ReadsBody left members.items) result parser.old.rest.now
        parser.new.rest.now }
    ensures only { FindsRefusal (body_tokens deep) ends_body left result parser.old.rest.now
        parser.new.rest.now }
    ensures stuck { Halts (body_tokens deep) left result parser.old.rest.now parser.new.rest.now }
{
    if left == 0 {
        if begins_body(parser.kind()) {
            return Err(no_room(true));
        }
        return Ok(Vec::new(parser.alloc));
    }
    let mut members = Vec::new(parser.alloc);
    opening_members(parser, left - 1, &mut members)?;
    sections(parser, left - 1, &mut members)?;
    Ok(members)
}

/// Takes the members before the first section: { Member }.
#[cycle(body)]
fn opening_members(
    parser: &mut Parser<'_>,
    left: u32,
    members: &mut Vec<Member>,
) -> Result<(), Refusal>
    ensures found { IfOk result (λ _. (ms : _) × (members.new.items ≡ members.old.items ++ ms)
        × Spans (groups (ReadsMember left (ReadsBody left)) ms) parser.old.rest.now parser.new.rest.now) }
    ensures only { FindsRefusal (λ n. many (member_tokens n)) ends_members left result parser.old.rest.now
        parser.new.rest.now }
    ensures stuck { Halts (λ n. many (member_tokens n)) left result parser.old.rest.now
        parser.new.rest.now }
{
    while begins_member(parser.kind()) {
        member(parser, left, members)?;
    }
    Ok(())
}

/// Takes Keyed | name Names [ Settings ] ";".
#[cycle(body)]
fn member(parser: &mut Parser<'_>, left: u32, members: &mut Vec<Member>) -> Result<(), Refusal>
    ensures found { IfOk result (λ _. (ms : _) × (members.new.items ≡ members.old.items ++ ms)
        × Spans (ReadsMember left (ReadsBody left) ms) parser.old.rest.now parser.new.rest.now) }
    ensures only { FindsRefusal member_tokens anything left result parser.old.rest.now parser.new.rest.now }
    ensures stuck { Halts member_tokens left result parser.old.rest.now parser.new.rest.now }
{
    if parser.is_at(TokenKind::Name) {
        let declaration = declaration(parser, left)?;
        return put(members, declaration);
    }
    keyed(parser, left, members)
}

/// Takes a clause that begins with a reserved word.
#[cycle(body)]
fn keyed(parser: &mut Parser<'_>, left: u32, members: &mut Vec<Member>) -> Result<(), Refusal>
    ensures found { IfOk result (λ _. (ms : _) × (members.new.items ≡ members.old.items ++ ms)
        × Spans (ReadsKeyed left (ReadsBody left) ms) parser.old.rest.now parser.new.rest.now) }
    ensures only { FindsRefusal keyed_of anything left result parser.old.rest.now parser.new.rest.now }
    ensures stuck { Halts keyed_of left result parser.old.rest.now parser.new.rest.now }
{
    if parser.is_at(TokenKind::Reserved(words::EVENT)) {
        return events(parser, left, members);
    }
    if parser.is_at(TokenKind::Reserved(words::HIDE)) {
        return hides(parser, members);
    }
    if parser.eat(TokenKind::Reserved(words::BLOCK)) {
        let unit = unit(parser, left)?;
        return put(members, Member::Block(unit));
    }
    let member = single(parser, left)?;
    put(members, member)
}

/// Takes [ Section { Section | Keyed } ].
#[cycle(body)]
fn sections(parser: &mut Parser<'_>, left: u32, members: &mut Vec<Member>) -> Result<(), Refusal>
    ensures found { IfOk result (λ _. (ms : _) × (members.new.items ≡ members.old.items ++ ms)
        × Spans (ReadsSections left (ReadsBody left) ms) parser.old.rest.now parser.new.rest.now) }
    ensures only { FindsRefusal sections_tokens ends_body left result parser.old.rest.now
        parser.new.rest.now }
    ensures stuck { Halts sections_tokens left result parser.old.rest.now parser.new.rest.now }
{
    if !begins_section(parser.kind()) {
        return Ok(());
    }
    section(parser, left, members)?;
    later_clauses(parser, left, members)?;
    Ok(())
}

/// Takes { Section | Keyed }.
#[cycle(body)]
fn later_clauses(
    parser: &mut Parser<'_>,
    left: u32,
    members: &mut Vec<Member>,
) -> Result<(), Refusal>
    ensures found { IfOk result (λ _. (ms : _) × (members.new.items ≡ members.old.items ++ ms)
        × Spans (groups (ReadsLater left (ReadsBody left)) ms) parser.old.rest.now parser.new.rest.now) }
    ensures only { FindsRefusal (λ n. many (later_tokens n)) ends_body left result parser.old.rest.now
        parser.new.rest.now }
    ensures stuck { Halts (λ n. later_tokens n ▸ many (later_tokens n)) left result
        parser.old.rest.now parser.new.rest.now }
{
    while begins_later(parser.kind()) {
        later_clause(parser, left, members)?;
    }
    Ok(())
}

/// Takes Section | Keyed.
#[cycle(body)]
fn later_clause(
    parser: &mut Parser<'_>,
    left: u32,
    members: &mut Vec<Member>,
) -> Result<(), Refusal>
    ensures found { IfOk result (λ _. (ms : _) × (members.new.items ≡ members.old.items ++ ms)
        × Spans (ReadsLater left (ReadsBody left) ms) parser.old.rest.now parser.new.rest.now) }
    ensures only { FindsRefusal later_tokens ends_section left result parser.old.rest.now
        parser.new.rest.now }
    ensures stuck { Halts later_tokens left result parser.old.rest.now parser.new.rest.now }
{
    if begins_section(parser.kind()) {
        return section(parser, left, members);
    }
    keyed(parser, left, members)
}
