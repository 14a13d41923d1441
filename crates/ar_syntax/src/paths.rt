//! Paths.

use ar_base::{NameId, Place};

/// Where a path begins to look for its first name.
#[derive(Clone, Copy)]
pub enum PathStart {
    /// In the unit in which the path is read.
    Here,
    /// In the unit round it: `owner`.
    Owner,
    /// In the main block: `main`.
    Main,
}

/// A path: names with dots between them.
#[derive(Drop)]
pub struct Path {
    /// Where it begins.
    pub start: PathStart,
    /// Its names, at least one.
    pub names: Vec<NameId>,
    /// The place of its first token.
    pub at: Place,
}
