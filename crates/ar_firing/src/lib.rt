//! Firing orders and cuts of static systems: mode trees, the rules of the static fragment, firable
//! sets, orders, cuts and conflicts.
//!
//! The definitions stand in `specs/`, over the systems of `ar_meaning`. Each function here has an
//! empty body and states a law of them.
#![tactic(auto)]

pub mod bounded;
pub mod images;
pub mod least;
pub mod listing;
pub mod orders;
pub mod statics;
