//! The rules that are tested in whole trees.

/// A rule that is tested in a whole tree.
#[derive(Clone, Copy)]
pub(crate) enum Rule {
    /// The rule of names (L10).
    Names,
    /// The rule of kinds (L11).
    Kinds,
    /// The rule of targets (L13).
    Targets,
}
