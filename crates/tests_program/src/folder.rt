use program_files::{Files, ReadableFiles};
use std::alloc::Global;
use std::cell::Cell;
use std::io::{self, ErrorKind};

/// `mov r0, 0`, `exit`.
pub const TWO: &str =
    "52434c31 0100 0000 01 66 01 0000 0000 0200 b700000000000000 9500000000000000";

/// The files `image`, `text` and `out`, which are there from the start. Another one takes no bytes.
#[derive(Drop)]
pub struct Folder {
    pub image: Vec<u8>,
    pub text: Vec<u8>,
    pub out: Vec<u8>,
    /// The number of writes of files.
    pub writes: usize,
    /// True if a write failed.
    pub has_failed: bool,
    /// The number of bytes of an image that were asked for last.
    pub most_read: Cell<usize>,
}

/// The bytes of hexadecimal digits, with spaces between them. None where they are none, or memory
/// lacks.
pub fn bytes_of(alloc: Global, text: &str) -> Option<Vec<u8>> {
    let digits: String = text.chars().filter(|c| *c != ' ').collect(alloc).ok()?;
    hex::decode(alloc, digits.as_str()).ok()
}

impl Folder {
    /// An image in hexadecimal, a text, and a file `out` that holds something else. None where
    /// memory lacks.
    pub fn of(alloc: Global, image: &str, text: &[u8]) -> Option<Folder> {
        Some(Folder {
            image: bytes_of(alloc, image)?,
            text: Vec::from_slice(alloc, text).ok()?,
            out: Vec::from_slice(alloc, b"before").ok()?,
            writes: 0,
            has_failed: false,
            most_read: Cell::new(0),
        })
    }

    fn file(&self, name: &str) -> Option<&Vec<u8>> {
        match name {
            "image" => Some(&self.image),
            "text" => Some(&self.text),
            "out" => Some(&self.out),
            _ => None,
        }
    }

    /// The first bytes of a file, that many at most.
    fn first_of(&self, alloc: Global, name: &str, most: usize) -> io::Result<Vec<u8>> {
        match self.file(name) {
            None => Err(io::Error::from(ErrorKind::NotFound)),
            Some(file) => Ok(Vec::from_slice(alloc, &file[..file.len().min(most)])?),
        }
    }
}

impl ReadableFiles for Folder {
    fn read(&self, alloc: Global, name: &str) -> io::Result<Vec<u8>> {
        self.first_of(alloc, name, usize::MAX)
    }

    fn read_first(&self, alloc: Global, name: &str, most: usize) -> io::Result<Vec<u8>> {
        self.most_read.set(most);
        self.first_of(alloc, name, most)
    }
}

impl Files for Folder {
    ghost failed = { λ f. f.has_failed };

    fn write(&mut self, name: &str, bytes: &[u8]) -> io::Result<()> {
        let written = match name {
            "image" => replace(&mut self.image, bytes),
            "text" => replace(&mut self.text, bytes),
            "out" => replace(&mut self.out, bytes),
            _ => Err(io::Error::from(ErrorKind::StorageFull)),
        };
        match written {
            Ok(()) => self.writes = self.writes.wrapping_add(1),
            Err(_) => self.has_failed = true,
        }
        written
    }
}

/// Makes those bytes the whole of a file, or leaves it as it is.
fn replace(file: &mut Vec<u8>, bytes: &[u8]) -> io::Result<()> {
    let new = Vec::from_slice(*file.allocator(), bytes)?;
    *file = new;
    Ok(())
}
