//! What is counted, and its limits.

ghost use Rattle.std.specs.Prelude.{◌≡◌};
ghost use Rattle.ar_base.specs.Counts.{limit_of};

/// The most nodes that may be asked for.
pub const MOST_NODES: u32 = 16_777_216;

/// How many nodes there may be where no number is asked for, by each command but `make`, which may
/// have the most.
pub const USUAL_NODES: u32 = 1_000_000;

/// What is counted and limited, in the order in which the limits are listed.
#[derive(Clone, Copy)]
pub enum Count {
    /// Bytes of the model.
    ModelBytes,
    /// Bytes of the script.
    ScriptBytes,
    /// Nested productions of the grammar that are open at one token.
    Nesting,
    /// Units from the main block down, itself included.
    Depth,
    /// Units of the tree.
    Units,
    /// Variables of the tree.
    Variables,
    /// Events of the tree.
    Events,
    /// Members, declared names, settings, paths, parts, instructions and expression forms, over all units.
    TreeNodes,
    /// Ways of one event.
    Ways,
    /// Parts of all synchronised ways.
    WayParts,
    /// Nodes of guards, values, conditions and observers of the flat system.
    ExpressionNodes,
    /// Gates of the table of gates.
    Gates,
    /// Cut lines of a list of cuts.
    CutLines,
}

impl Count {
    /// The greatest number that this count may have.
    pub fn limit(self) -> u32
        ensures { result ≡ limit_of self }
    {
        match self {
            Count::ModelBytes => 4_194_304,
            Count::ScriptBytes => 1_048_576,
            Count::Nesting => 128,
            Count::Depth => 64,
            Count::Units => 16_384,
            Count::Variables => 32_768,
            Count::Events => 16_384,
            Count::TreeNodes => 2_000_000,
            Count::Ways => 256,
            Count::WayParts => 1_000_000,
            Count::ExpressionNodes => 1_000_000,
            Count::Gates => 2_000_000,
            Count::CutLines => 4_096,
        }
    }
}
