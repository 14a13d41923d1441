//! The grammar of expressions over tokens, and the steps over tokens that the rest of the grammar takes too.
#![tactic(auto)]

mod begins;
mod cursor;
mod expressions;
mod lexeme;
mod lists;
mod paths;
mod terms;

pub use begins::is_word;
pub use cursor::{Parser, no_room, place_of};
pub use lexeme::{Lexeme, Refusal};
pub use lists::{in_box, list_of, put};
