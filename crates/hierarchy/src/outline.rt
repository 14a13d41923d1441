//! A unit before its names are known.

use ar_base::{BodyId, NameId, UnitId};

/// A unit of the tree, before it is known what its names lead to.
#[derive(Clone, Copy)]
pub struct Outline {
    /// Its name in the unit above; without meaning in the main block.
    pub name: NameId,
    /// The unit above, which the main block has none of.
    pub owner: Option<UnitId>,
    /// Its body.
    pub body: BodyId,
    /// The declaration whose settings hold in it: the body in which it stands, and its place there.
    pub set_at: Option<(BodyId, u32)>,
}
