//! A long listing over sinks that fail: at each of their calls, and where their room ends within a piece.

use crate::made::{Part, text_of};
use crate::{no_memory, words_of};
use altarica_run::altarica;
use ar_io::{MemoryShelf, MemorySink};
use std::io;

/// The room for the whole listing, in bytes.
const WHOLE: usize = 400_000;

/// The most bytes that go on at a time.
const PIECE: usize = 65_536;

/// A main block with two rows of 115 instances, whose observer is that one of each row has failed.
const MODEL: [Part; 10] = [
    ("class C Boolean works (init = true);", 0, 1, 1),
    (
        " event fail; transition fail: works -> works := false;",
        0,
        1,
        1,
    ),
    (" end block B", 0, 1, 1),
    (" C a#;", 100, 215, 215),
    (" C b#;", 100, 215, 215),
    (" observer Boolean lost = (false", 0, 1, 1),
    (" or not a#.works", 100, 215, 215),
    (") and (false", 0, 1, 1),
    (" or not b#.works", 100, 215, 215),
    ("); end", 0, 1, 1),
];

/// The sinks that may fail: the end of its name, the numbers of the calls that fail, and the room.
const SINKS: [(&str, &[u32], usize); 11] = [
    ("put-1", &[1], WHOLE),
    ("put-2", &[2], WHOLE),
    ("put-3", &[3], WHOLE),
    ("put-4", &[4], WHOLE),
    ("put-5", &[5], WHOLE),
    ("put-6", &[6], WHOLE),
    ("room-0", &[], 0),
    ("room-65000", &[], 65_000),
    ("room-100000", &[], 100_000),
    ("room-200000", &[], 200_000),
    ("room-300000", &[], 300_000),
];

/// Lists 13,225 cuts of two events each to a sink that takes all, then to sinks of which a call fails, then to sinks
/// whose room ends within a piece. Prints for each the status, the sink's faults, in how many pieces of 64 KiB what it
/// has can go, and whether these are the first bytes of the whole.
pub(crate) fn run_sinks(rt: &HostRuntime) -> io::Result<()> {
    let model = text_of(rt.alloc(), &MODEL, false)?;
    let mut shelf = MemoryShelf::new(rt.alloc());
    shelf.place("model", model.as_bytes()).map_err(no_memory)?;
    let words = words_of(rt, "cuts model --observer lost")?;
    let mut whole = MemorySink::new(rt.alloc(), WHOLE).map_err(no_memory)?;
    let status = altarica(rt.alloc(), &words, &mut shelf, &mut whole).number();
    println!(rt;
        "long-listing: status {status} bytes {}",
        whole.bytes().len()
    )?;
    for (name, calls, room) in &SINKS {
        let mut sink = MemorySink::new(rt.alloc(), *room).map_err(no_memory)?;
        sink.fail_at(calls).map_err(no_memory)?;
        let status = altarica(rt.alloc(), &words, &mut shelf, &mut sink).number();
        let faults = sink.fault_count();
        let pieces = sink.bytes().len().div_ceil(PIECE);
        let is_front = whole.bytes().starts_with(sink.bytes());
        print!(rt; "long-listing-{name}: status {status} faults {faults} ")?;
        println!(rt; "pieces {pieces} first bytes {is_front}")?;
    }
    Ok(())
}
