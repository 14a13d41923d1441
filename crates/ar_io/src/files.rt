//! The file system.

ghost use Rattle.std.specs.Prelude.{◌≡◌, ℕ, ◌+◌, ◌^◌, ◌<◌, List, [], Option, Some, None, Err, take, IfOk};
ghost use Rattle.ar_io.specs.Handing.{ReadsToTheEnd};
ghost use Rattle.ar_io.specs.Handing.{told_where};

use crate::ghost_log::GhostLog;
use crate::memory_shelf::next_count;
use crate::{LoadFault, Shelf};
use std::alloc::Global;
use std::fs;
use std::io::Read;
use std::rt::Files;

/// The bytes that one read asks for at most.
const READ_BYTES: usize = 8192;

/// That nothing was opened.
#[derive(Clone, Copy)]
pub struct NotOpened {}

/// What opens readers by their names.
pub trait Opens {
    /// What it opens.
    type Reader: Read + Drop;

    // The bytes under a name, where they are known.
    ghost held: { Self → List ℕ → Option (List ℕ) };

    /// Opens the reader of this name, at its begin. Where the bytes under the name are known, they are
    /// what the reader has left.
    fn open(&self, name: &str) -> Result<Self::Reader, NotOpened>
        ensures { (all : List ℕ) → held self.now name.now ≡ Some all
            → IfOk result (λ reader. Self.Reader.remaining reader ≡ Some all) };
}

/// The files of the system, by their paths. Nothing is known of what they hold.
#[derive(Clone, Copy, Drop)]
pub struct SystemFiles<'a, R: Files> {
    rt: &'a R,
}

impl<'a, R: Files> Opens for SystemFiles<'a, R> {
    type Reader = R::File;

    ghost held = { λ _ _. None };

    fn open(&self, name: &str) -> Result<R::File, NotOpened> {
        match fs::open(self.rt, name) {
            Ok(file) => Ok(file),
            Err(_) => Err(NotOpened {}),
        }
    }
}

/// Texts that are read from what opens readers by their names. It has one count of faults for all
/// names, and tells what its loads gave.
#[derive(Drop)]
pub struct OpeningShelf<O: Opens + Drop> {
    files: O,
    faults: u64,
    log: GhostLog<O>,
}

/// The files of the system as a shelf. It tells nothing of what they hold.
pub type FileShelf<'a, R> = OpeningShelf<SystemFiles<'a, R>>;

impl<O: Opens + Drop> OpeningShelf<O> {
    /// The shelf of what these files open. Takes no memory.
    pub fn over(files: O) -> OpeningShelf<O>
        ensures files { result.files ≡ files }
        ensures faults { result.faults ≡ 0 }
        ensures log { result.log.loads ≡ [] }
    {
        let log = GhostLog::new(&files);
        OpeningShelf {
            files,
            faults: 0,
            log,
        }
    }
}

impl<'a, R: Files> OpeningShelf<SystemFiles<'a, R>> {
    /// The files that the runtime opens. Takes no memory.
    pub fn new(rt: &'a R) -> FileShelf<'a, R>
        ensures faults { result.faults ≡ 0 }
        ensures log { result.log.loads ≡ [] }
    {
        OpeningShelf::over(SystemFiles { rt })
    }
}

/// Reads a reader up to its end, or up to one byte more than `most`. The error is the reader's, or
/// that memory was refused.
fn take_all<F: Read>(alloc: Global, file: &mut F, most: usize) -> Result<Vec<u8>, LoadFault>
    requires { most < 2 ^ 32 }
    ensures bytes { (all : List ℕ) → F.remaining file.old ≡ Some all
        → IfOk result (λ bytes. bytes.items ≡ take (most + 1) all) }
    ensures cause { result ≡ Err LoadFault.TooLong → ⊥ }
{
    let mut bytes: Vec<u8> = Vec::new(alloc);
    let mut chunk = [0u8; READ_BYTES];
    while bytes.len() <= most {
        let asked = (most + 1 - bytes.len()).min(READ_BYTES);
        let Ok(taken) = file.read(&mut chunk[..asked]) else {
            return Err(LoadFault::Failed);
        };
        if taken == 0 {
            return Ok(bytes);
        }
        if bytes.extend_from_slice(&chunk[..taken]).is_err() {
            return Err(LoadFault::Memory);
        }
    }
    Ok(bytes)
}

/// All that a reader has left, if that is at most `most` bytes.
fn read_whole<F: Read>(alloc: Global, file: &mut F, most: usize) -> Result<Vec<u8>, LoadFault>
    requires { most < 2 ^ 32 }
    ensures { ReadsToTheEnd (F.remaining file.old) most result }
{
    let bytes = take_all(alloc, file, most)?;
    if bytes.len() > most {
        return Err(LoadFault::TooLong);
    }
    Ok(bytes)
}

/// The bytes of the file of a name.
fn read_file<O: Opens>(
    files: &O,
    alloc: Global,
    name: &str,
    most: usize,
) -> Result<Vec<u8>, LoadFault>
    requires { most < 2 ^ 32 }
    ensures { ReadsToTheEnd (O.held files.now name.now) most result }
{
    match files.open(name) {
        Ok(mut file) => read_whole(alloc, &mut file, most),
        Err(_) => Err(LoadFault::Failed),
    }
}

impl<O: Opens + Drop> Shelf for OpeningShelf<O> {
    ghost holds = { λ s name. told_where (O.held s.files name) };

    ghost faults = { λ s _. s.faults };

    ghost loads = { λ s. s.log.loads };

    fn load(&mut self, alloc: Global, name: &str, most: usize) -> Result<Vec<u8>, LoadFault> {
        match read_file(&self.files, alloc, name, most) {
            Ok(bytes) => self.log.keep(name, most, Ok(bytes)),
            Err(LoadFault::Failed) => {
                self.faults = next_count(self.faults);
                self.log.keep(name, most, Err(LoadFault::Failed))
            }
            Err(LoadFault::TooLong) => self.log.keep(name, most, Err(LoadFault::TooLong)),
            Err(LoadFault::Memory) => self.log.keep(name, most, Err(LoadFault::Memory)),
        }
    }
}
