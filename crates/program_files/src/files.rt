ghost use Rattle.std.specs.Prelude.{◌≡◌, ◌≢◌, ℕ, List, Option, None, Bool, false, true, IfOk, IfErr, IsOk, IsErr};
ghost use Rattle.std.specs.IoError.{error_kind};
ghost use Rattle.program_files.specs.Files.{Disk, Holds, IsBeginning, IsKept, IsUnreadable, IsWritten, OthersStay};

use crate::replacing::write_whole;
use std::alloc::Global;
use std::cell::Cell;
use std::fs;
use std::io::{self, ErrorKind, Input, Read};
use std::time::Clock;

/// The files that can be read.
pub trait ReadableFiles {
    // The bytes of each file, if they are known.
    ghost disk: { Self → Option Disk } = { λ _. None };

    /// All bytes of the file of that name.
    fn read(&self, alloc: Global, name: &str) -> io::Result<Vec<u8>>
        ensures held { IfOk result (λ bytes. Holds (disk self.now) name.now bytes.items) }
        ensures unread { IfErr result (λ e. error_kind e ≢ ErrorKind.OutOfMemory →
            IsUnreadable (disk self.now) name.now) };

    /// The first bytes of the file of that name, `most` at most.
    fn read_first(&self, alloc: Global, name: &str, most: usize) -> io::Result<Vec<u8>>
        ensures begun { IfOk result (λ bytes. IsBeginning (disk self.now) name.now most bytes.items) }
        ensures unread { IfErr result (λ e. error_kind e ≢ ErrorKind.OutOfMemory →
            IsUnreadable (disk self.now) name.now) };
}

/// The files that can be read and written.
pub trait Files: ReadableFiles {
    // True if a write failed.
    ghost failed: { Self → Bool };

    // True of each name that is written in place, as a pipe's or a device's, if files are known.
    ghost in_place: { Self → List ℕ → Bool } = { λ _ _. false };

    /// Makes those bytes the whole of the file of that name. Every other file stays as it was, also
    /// if it fails, which `failed` tells from then on; then that file stays too, unless it is
    /// written in place.
    fn write(&mut self, name: &str, bytes: &[u8]) -> io::Result<()>
        ensures written { IfOk result (λ _. IsWritten (Self.disk self.new) name.now bytes.now) }
        ensures kept { IsErr result →
            IsKept (in_place self.old name.now) (Self.disk self.old) (Self.disk self.new) name.now }
        ensures others { OthersStay (Self.disk self.old) (Self.disk self.new) name.now }
        ensures took { IsOk result → failed self.new ≡ failed self.old }
        ensures lost { IsErr result → failed self.new ≡ true };

    /// The name of the file that was last not read or written, and the system's reason, as a line;
    /// none if that isn't known. Nothing is claimed of it.
    fn fault(&self, _alloc: Global) -> Option<String> {
        None
    }
}

/// The files of the system, and standard input under the name `-`, if it is read. Nothing is
/// claimed of what they hold. A file is written next to its place and renamed over it; what is no
/// regular file is written in place.
#[derive(Drop)]
pub struct SystemFiles<'a, R> {
    rt: &'a R,
    failed: bool,
    fault: Cell<Option<String>>,
}

impl<'a, R> SystemFiles<'a, R> {
    ghost use Rattle.std.specs.Prelude.{◌≡◌, false};
    ghost use Rattle.program_files.specs.System.{has_failed};

    /// The files that this runtime reaches, of which no write failed.
    pub fn new(rt: &'a R) -> SystemFiles<'a, R>
        ensures { has_failed result ≡ false }
    {
        SystemFiles {
            rt,
            failed: false,
            fault: Cell::new(None),
        }
    }
}

/// All bytes that come from there.
fn read_all<S: Read + Drop>(alloc: Global, mut source: S) -> io::Result<Vec<u8>> {
    let mut bytes = Vec::new(alloc);
    source.read_to_end(&mut bytes)?;
    Ok(bytes)
}

impl<R: std::rt::Files + AllocGlobal + Input> SystemFiles<'_, R> {
    /// Keeps the reason of a failed read or write of a file.
    fn kept<T>(&self, name: &str, done: io::Result<T>) -> io::Result<T>
        ensures { result ≡ done }
    {
        if let Err(error) = &done {
            self.fault
                .set(format!(in self.rt.alloc(); "  {name}: {error}\n").ok());
        }
        done
    }

    /// Standard input, or a file.
    fn read_whole(&self, alloc: Global, name: &str) -> io::Result<Vec<u8>> {
        if name == "-" {
            return read_all(alloc, self.rt.reader());
        }
        fs::read(self.rt, name)
    }

    /// The first bytes of either.
    fn read_beginning(&self, alloc: Global, name: &str, most: usize) -> io::Result<Vec<u8>> {
        if name == "-" {
            return read_all(alloc, self.rt.reader().take(most as u64));
        }
        read_all(alloc, fs::open(self.rt, name)?.take(most as u64))
    }
}

impl<R: std::rt::Files + AllocGlobal + Input> ReadableFiles for SystemFiles<'_, R> {
    fn read(&self, alloc: Global, name: &str) -> io::Result<Vec<u8>> {
        self.kept(name, self.read_whole(alloc, name))
    }

    fn read_first(&self, alloc: Global, name: &str, most: usize) -> io::Result<Vec<u8>> {
        self.kept(name, self.read_beginning(alloc, name, most))
    }
}

impl<R: std::rt::Files + AllocGlobal + Input + Clock> Files for SystemFiles<'_, R> {
    ghost use Rattle.program_files.specs.System.{has_failed};

    ghost failed = { λ f. has_failed f };

    fn write(&mut self, name: &str, bytes: &[u8]) -> io::Result<()> {
        let written = self.kept(name, write_whole(self.rt, name, bytes));
        if written.is_err() {
            self.failed = true;
        }
        written
    }

    fn fault(&self, _alloc: Global) -> Option<String> {
        self.fault.take()
    }
}
