//! The grammar of models over tokens: the items that a list of tokens has, and where a list that has none is refused.
#![tactic(auto)]

mod begins;
mod body;
mod instructions;
mod items;
mod members;
mod names;
mod unread;

pub use items::model;
