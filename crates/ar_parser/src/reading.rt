//! The public call: a text is cut in tokens, and these are read as a model.

ghost use Rattle.std.specs.Prelude.{◌≡◌, ◌≢◌, ◌≤◌, ℕ, length, IfOk, IfErr, IsErrAnd};
ghost use Rattle.ar_base.specs.Counts.{limit_of};
ghost use Rattle.ar_base.specs.declared.counts.Count.TheVariants.{ModelBytes, Nesting};
ghost use Rattle.ar_parser.specs.declared.fault.ParseFault.TheVariants.{Lex, Syntax, Depth, Memory};
ghost use Rattle.ar_parser.specs.Models.{HasFaultAt, ReadsWithin, Reads, SyntaxStandsAt, DepthStandsAt};
ghost use Rattle.ar_parser.specs.ModelsInside.{EndsWithin};

use crate::fault::{ParseFault, refused_at};
use crate::numbering::lexemes;
use ar_base::{Count, Names};
use ar_grammar::model;
use ar_syntax::Model;
use expression_grammar::{Parser, place_of};
use std::alloc::Global;

/// Reads a model: the tree that the grammar gives for the text, which has at most 4,194,304 bytes.
///
/// # Errors
/// `Lex` exactly where the text has no tokens, with the place of its first lexical fault. `Depth` exactly where a token
/// opens a production inside 128 others and some text of the grammar goes on with it, at the first such token. `Syntax`
/// exactly where no text goes on with a token and none before it is so deep, at that token. `Memory` where memory was
/// refused.
pub fn parse(alloc: Global, text: &[u8]) -> Result<Model, ParseFault>
    requires { length text.now ≤ limit_of ModelBytes }
    ensures found { IfOk result (λ model. Reads text.now model) }
    ensures lex { IfErr result (λ e. (at : _) → e ≡ Lex at → HasFaultAt text.now at) }
    ensures faulty { (at : _) → HasFaultAt text.now at
        → IsErrAnd result (λ e. e ≢ Memory → e ≡ Lex at) }

    // A text that has a reading of any nesting is read, or refused for want of memory or, where the nesting is above the limit, of room.
    ensures only { (n : ℕ) (model : _) → ReadsWithin n text.now model
        → EndsWithin (limit_of Nesting) n result }

    // A text is refused at the first token that no text of the grammar goes on with, and only there.
    ensures syntax { IfErr result (λ e. (at : _) → e ≡ Syntax at → SyntaxStandsAt text.now at) }
    ensures stuck { (at : _) → SyntaxStandsAt text.now at
        → IsErrAnd result (λ e. e ≢ Memory → e ≡ Syntax at) }

    // Unless a token before it, with which some text goes on, is too deep: then it is refused at the first of these, and only there.
    ensures depth { IfErr result (λ e. (at : _) → e ≡ Depth at → DepthStandsAt text.now at) }
    ensures deep { (at : _) → DepthStandsAt text.now at
        → IsErrAnd result (λ e. e ≢ Memory → e ≡ Depth at) }
{
    let mut names = Names::new(alloc);
    let (lexemes, end) = lexemes(alloc, text, &mut names)?;
    let mut parser = Parser {
        alloc,
        rest: lexemes.as_slice(),
        end,
    };
    let read = model(&mut parser, Count::Nesting.limit());
    let Parser {
        alloc: _,
        rest,
        end: _,
    } = parser;
    match read {
        Ok(items) => Ok(Model { names, items, end }),
        Err(refused) => Err(refused_at(refused, place_of(rest, end))),
    }
}
