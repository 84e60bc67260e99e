//! A part of a text, as it is formatted.
ghost use Rattle.std.specs.Prelude.{◌≡◌, ◌++◌, ◌≤◌, [], take};

use std::fmt;

/// The most bytes that a window shows.
pub(crate) const ROOM: usize = 1_024;

/// Shows a part of the text that is written to it: what comes after a number of bytes, as far as
/// there is room. It takes no memory but its own.
#[derive(Drop)]
pub(crate) struct Window {
    skip: usize,
    bytes: [u8; ROOM],
    len: usize,
    ghost within: { len ≤ 1024 },
}

impl Window {
    ghost use Rattle.program_files.specs.Window.{shown};

    /// A window on what comes after that many bytes.
    pub(crate) fn after(skip: usize) -> Window
        ensures skip { result.skip ≡ skip }
        ensures shown { shown result ≡ [] }
    {
        Window {
            skip,
            bytes: [0; ROOM],
            len: 0,
        }
    }

    /// The bytes that it shows.
    pub(crate) fn shown(&self) -> &[u8]
        ensures { result.now ≡ shown self.now }
    {
        &self.bytes[..self.len]
    }

    /// Adds bytes as far as there is room.
    fn add(&mut self, bytes: &[u8])
        ensures skip { self.new.skip ≡ self.old.skip }
        ensures shown { shown self.new ≡ take 1024 (shown self.old ++ bytes.now) }
    {
        let at = self.len;
        let count = bytes.len().min(ROOM - at);
        self.bytes[at..at + count].copy_from_slice(&bytes[..count]);
        self.len = at + count;
    }
}

impl fmt::Write for Window {
    ghost use Rattle.program_files.specs.Window.{Sees};

    ghost write_str_gives = { Sees 1024 };

    fn write_str(&mut self, s: &str) -> fmt::Result {
        let bytes = s.as_bytes();
        let passed = self.skip.min(bytes.len());
        self.skip -= passed;
        self.add(&bytes[passed..]);
        Ok(())
    }
}
