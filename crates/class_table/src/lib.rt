//! The bodies, types and symbols of a model, and the rules that are tested over the whole text.
#![tactic(auto)]

mod containment;
mod declaring;
pub mod earliest;
mod given;
mod giving;
mod inside;
mod items;
mod laws;
mod laying;
mod main_block;
mod members;
mod misnaming;
mod naming;
mod order;
mod ranks;
mod repeats;
mod sites;
mod symbols;
mod tables;
mod tabling;
mod types;

pub use laws::declaring_laws;
pub use sites::owned_at;
pub use tables::{Body, Classes, Owned, TypeBody};
pub use tabling::table;
