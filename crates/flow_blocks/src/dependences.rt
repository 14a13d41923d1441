//! What flows depend on, and the classes that they form.

/// Which numbers below `count` depend on which.
#[derive(Drop)]
pub struct Graph {
    /// How many numbers there are: they go from 0.
    pub count: u32,
    /// Pairs whose first number depends on the second.
    pub uses: Vec<(u32, u32)>,
}

/// A class of mutual dependence.
#[derive(Drop)]
pub struct Block {
    /// Its numbers, ascending.
    pub members: Vec<u32>,
}
