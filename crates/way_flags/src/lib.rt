//! Which ways of a flat system can fire, how that changes with the values, and what state variables receive where one fires.
#![tactic(auto)]

mod effects;
mod faults;
mod flags;
mod index;
mod looking;
mod order;
mod part_flags;
mod receiving;
mod sequence;
mod takers;
mod turning;
mod waiting;

pub use faults::ReceiveFault;
pub use index::{WayIndex, way_index};
pub use looking::{renew, way_flags};
pub use part_flags::{has_must, is_set, musts_can, some_can};
pub use receiving::received;
pub use turning::turn;
