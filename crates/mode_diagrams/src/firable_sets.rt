//! The trees of a forest with their modes by number, and firable sets by the modes of the trees.

ghost use Rattle.mode_diagrams.specs.Numbers.{FirableByModes};

/// A set is firable in the trees exactly where it has the events on the paths to some modes of the numbered trees, which
/// are in the order of their events.
pub fn firable_by_modes()
    ensures { FirableByModes }
{}
