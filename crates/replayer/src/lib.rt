//! The replay of a script's commands: what they do is written moment by moment, or only where they leave the system.
#![tactic(auto)]

mod enabled;
mod ends;
mod latest;
pub mod laws;
mod obeying;
mod ready;
mod replaying;
mod settling;
mod shown;
mod touched;
mod trace;

pub use ends::{End, ReplayFault};
pub use replaying::replay;
pub use settling::settle;
