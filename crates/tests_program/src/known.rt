//! Files of which contracts know what they hold.

ghost use Rattle.std.specs.Prelude.{◌≡◌, None, Some, false, IfErr, IfOk, IsErr, OnErr, OnOk};
ghost use Rattle.program_files.specs.Files.{IsKept, OthersStay};
ghost use Rattle.tests_program.specs.Known.{two_files};

use program_files::{Files, ReadableFiles};
use std::alloc::Global;
use std::io::{self, ErrorKind};

/// The files `text` and `image`, and no other.
#[derive(Drop)]
pub struct TwoFiles {
    pub text: Vec<u8>,
    pub image: Vec<u8>,
    /// True if they can be written.
    pub takes: bool,
    /// True if a write failed.
    pub has_failed: bool,
}

impl TwoFiles {
    /// The bytes of a file.
    fn file(&self, name: &str) -> io::Result<&[u8]>
        ensures held { IfOk result (λ bytes. two_files self.now.text.items self.now.image.items name.now ≡
            Some bytes.now) }
        ensures absent { IfErr result (λ _. two_files self.now.text.items self.now.image.items name.now ≡ None) }
    {
        match name {
            "text" => Ok(&self.text),
            "image" => Ok(&self.image),
            _ => Err(io::Error::from(ErrorKind::NotFound)),
        }
    }

    /// Makes those bytes the whole of a file, or leaves it as it is.
    fn replaced(&mut self, name: &str, bytes: &[u8]) -> io::Result<()>
        ensures written { OnOk result (two_files self.new.text.items self.new.image.items name.now ≡ Some bytes.now) }
        ensures kept { IsErr result → IsKept false (Some (two_files self.old.text.items self.old.image.items))
            (Some (two_files self.new.text.items self.new.image.items)) name.now }
        ensures others { OthersStay (Some (two_files self.old.text.items self.old.image.items))
            (Some (two_files self.new.text.items self.new.image.items)) name.now }
        ensures flag { self.new.has_failed ≡ self.old.has_failed }
    {
        if !self.takes {
            return Err(io::Error::from(ErrorKind::ReadOnlyFilesystem));
        }
        match name {
            "text" => replace(&mut self.text, bytes),
            "image" => replace(&mut self.image, bytes),
            _ => Err(io::Error::from(ErrorKind::StorageFull)),
        }
    }
}

/// Makes those bytes the whole of a file's, or leaves it as it is.
fn replace(file: &mut Vec<u8>, bytes: &[u8]) -> io::Result<()>
    ensures written { OnOk result (file.new.items ≡ bytes.now) }
    ensures kept { OnErr result (file.new.items ≡ file.old.items) }
{
    let new = Vec::from_slice(*file.allocator(), bytes)?;
    *file = new;
    Ok(())
}

impl ReadableFiles for TwoFiles {
    ghost use Rattle.std.specs.Prelude.{Some};
    ghost use Rattle.tests_program.specs.Known.{two_files};

    ghost disk = { λ f. Some (two_files f.text.items f.image.items) };

    fn read(&self, alloc: Global, name: &str) -> io::Result<Vec<u8>> {
        Ok(Vec::from_slice(alloc, self.file(name)?)?)
    }

    fn read_first(&self, alloc: Global, name: &str, most: usize) -> io::Result<Vec<u8>> {
        let file = self.file(name)?;
        Ok(Vec::from_slice(alloc, &file[..file.len().min(most)])?)
    }
}

impl Files for TwoFiles {
    ghost failed = { λ f. f.has_failed };

    fn write(&mut self, name: &str, bytes: &[u8]) -> io::Result<()> {
        let written = self.replaced(name, bytes);
        if written.is_err() {
            self.has_failed = true;
        }
        written
    }
}
