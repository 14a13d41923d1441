//! What the declarations of a tree say, by numbers.

use ar_base::Text;
use gts_core::{Act, DeclaredEvent, Observer, Variable};

/// The declarations of a tree of units. Each number of a thing is its place, from 0, in the list of
/// its kind.
#[derive(Drop)]
pub struct Bound {
    /// The names of the symbols.
    pub symbols: Vec<Text>,
    /// The paths of the units from the main block.
    pub units: Vec<Text>,
    /// The state variables and the flows together.
    pub variables: Vec<Variable>,
    /// The events as they are declared.
    pub events: Vec<DeclaredEvent>,
    /// The instructions of the assertions.
    pub assertions: Vec<Act>,
    /// The observers.
    pub observers: Vec<Observer>,
}
