//! Writers as sinks: standard output is one.

ghost use Rattle.std.specs.Prelude.{◌≡◌, ◌≤◌, [], Some, length, is_ok, take, OnOk, IfErr};
ghost use Rattle.std.specs.Io.KnownBytes.{Appends};
ghost use Rattle.ar_io.specs.Handing.{Handed};
ghost use Rattle.ar_io.specs.Handing.{Writes};

use crate::ghost_text::{GhostText, Piece};
use crate::memory_shelf::next_count;
use crate::{Sink, SinkFailed};
use std::io::{Print, Printer, Write, writer};
use std::marker::Model;

/// A writer as a sink. It tells the bytes that were handed to the writer and that the writer took, since
/// the sink was made; each piece is handed on and flushed before it is answered.
#[derive(Drop)]
pub struct WriterSink<W: Write + Drop> {
    to: W,
    faults: u64,
    told: GhostText<W>,
}

/// Standard output as a sink.
pub type StdSink<'a, R> = WriterSink<Printer<'a, R>>;

impl<W: Write + Drop> Model for WriterSink<W> {
    ghost use Rattle.ar_io.specs.Handing.{Handing};

    ghost Value = { Handing };

    ghost view = { λ s. record { contents = W.contents s.to; told = s.told.text; fault_count = s.faults } };
}

impl<W: Write + Drop> WriterSink<W> {
    /// A sink to this writer. Takes no memory.
    pub fn over(to: W) -> WriterSink<W>
        ensures contents { result.contents ≡ W.contents to }
        ensures told { result.told ≡ [] }
        ensures faults { result.fault_count ≡ 0 }
    {
        let told = GhostText::new(&to);
        WriterSink {
            to,
            faults: 0,
            told,
        }
    }
}

impl<'a, R: Print> WriterSink<Printer<'a, R>> {
    /// What the runtime prints to. Takes no memory.
    pub fn new(rt: &'a R) -> StdSink<'a, R>
        ensures told { result.told ≡ [] }
        ensures faults { result.fault_count ≡ 0 }
    {
        WriterSink::over(writer(rt))
    }
}

/// Writes all of a piece and has it handed to the system. The error is how many first bytes the writer
/// took before a write was refused or took nothing, or a flush was refused.
fn write_out<W: Write>(out: &mut W, piece: &[u8]) -> Result<(), usize>
    ensures whole { OnOk result (Appends (W.contents out.old) (W.contents out.new) piece.now) }
    ensures inside { IfErr result (λ taken. taken ≤ length piece.now) }
    ensures front { IfErr result (λ taken.
        Appends (W.contents out.old) (W.contents out.new) (take taken piece.now)) }
{
    let mut done = 0;
    while done < piece.len() {
        match out.write(&piece[done..]) {
            Ok(0) => return Err(done),
            Ok(taken) => done += taken,
            Err(_) => return Err(done),
        }
    }
    match out.flush() {
        Ok(()) => Ok(()),
        Err(_) => Err(done),
    }
}

/// Hands a piece to a writer, and keeps in mind the bytes that it took. Tells whether that is the whole
/// piece.
fn hand<W: Write, K>(out: &mut W, told: &mut GhostText<K>, piece: &[u8]) -> bool
    ensures { Handed (W.contents out.old) (W.contents out.new) told.old.text told.new.text piece.now
        result }
{
    match write_out(out, piece) {
        Ok(()) => {
            let more = told.and(&Piece { bytes: piece });
            *told = more;
            true
        }
        Err(taken) => {
            let more = told.and(&Piece {
                bytes: &piece[..taken],
            });
            *told = more;
            false
        }
    }
}

impl<W: Write + Drop> Sink for WriterSink<W> {
    ghost state = { λ s. record { bytes = Some s.told; faults = s.fault_count } };

    fn put(&mut self, piece: &[u8]) -> Result<(), SinkFailed>
        ensures writes { Writes (record { bytes = Some self.old.told; faults = self.old.fault_count })
            (record { bytes = Some self.new.told; faults = self.new.fault_count }) piece.now result }
        ensures handed { Handed self.old.contents self.new.contents self.old.told self.new.told
            piece.now (is_ok result) }
    {
        if !hand(&mut self.to, &mut self.told, piece) {
            self.faults = next_count(self.faults);
            return Err(SinkFailed {});
        }
        Ok(())
    }
}
