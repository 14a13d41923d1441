//! The tokens of a model's text.
//!
//! At each point the longest token is taken. Blanks and comments separate tokens.
#![tactic(auto)]

mod lexer;
mod marks;
mod numbers;
mod piece;
mod runs;
pub mod signs;
mod tables;
mod token;
pub mod words;

pub use lexer::tokens;
pub use token::{LexFault, Token, TokenKind};
