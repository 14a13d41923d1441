//! What every layer stands on: typed numbers, places in a text, texts and their table, the limits,
//! and the refusals of a model.
#![tactic(auto)]

mod counts;
mod faults;
mod indexed;
mod marks;
mod numbers;
mod pairing;
mod places;
mod table;
mod texts;

pub use counts::{Count, MOST_NODES, USUAL_NODES};
pub use faults::{Cap, Memory, RuleFault, keep};
pub use indexed::{IndexedPairs, index_pairs};
pub use marks::mark;
pub use numbers::{
    AssignId, AssignKind, BodyId, BodyKind, EventId, EventKind, GateId, GateKind, Id, NameId,
    NameKind, UnitId, UnitKind, VarId, VarKind, WayId, WayKind, numbers_below, numbers_of,
};
pub use pairing::{paired, paired_by};
pub use places::{Place, Span};
pub use table::Names;
pub use texts::Text;
