//! The outside, as traits that say what it may do: a shelf of named texts and a sink of bytes. Both
//! have two implementations: in memory, and over what opens readers and what writes, as the file system and standard output. Texts and numbers
//! are written to a sink by functions of their own, and what is written can be gathered before it goes
//! to one.
#![tactic(auto)]

mod files;
mod gathered;
mod ghost_log;
mod ghost_text;
mod memory_shelf;
mod memory_sink;
mod output;
mod outside;
mod pieces;

pub use files::{FileShelf, NotOpened, OpeningShelf, Opens, SystemFiles};
pub use gathered::{Beginning, Gathered, room};
pub use memory_shelf::MemoryShelf;
pub use memory_sink::MemorySink;
pub use output::{StdSink, WriterSink};
pub use outside::{LoadFault, Shelf, Sink, SinkFailed};
pub use pieces::{text_at, write_count, write_number, write_signed, write_text, write_wide};
