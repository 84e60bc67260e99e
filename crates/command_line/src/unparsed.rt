ghost use Rattle.std.specs.Prelude.{◌≡◌, ◌↔◌, IsTrue};
ghost use Rattle.clap.specs.Words.{kind_of};
ghost use Rattle.command_line.specs.Parsed.{IsMemory};

use clap::error::{Error, ErrorKind};
use std::alloc::{AllocError, AllocFailed};
use std::fmt;

/// The reason why words have no parse. It prints as the text for the user: usage, help, the
/// version, or the error in the words.
#[derive(Drop)]
pub struct Unparsed {
    error: Error,
}

impl Unparsed {
    pub(crate) fn new(error: Error) -> Unparsed
        ensures { IsMemory result ↔ (kind_of error ≡ ErrorKind.OutOfMemory) }
    {
        Unparsed { error }
    }

    /// True if memory was refused, so that nothing is known of the words.
    pub fn is_memory(&self) -> bool
        ensures { IsTrue result ↔ IsMemory self.now }
    {
        self.error.kind() == ErrorKind::OutOfMemory
    }
}

impl From<AllocError> for Unparsed {
    ghost use Rattle.command_line.specs.Parsed.{IsMemory};

    ghost from_gives = { λ _ u. IsMemory u };

    fn from(error: AllocError) -> Unparsed {
        Unparsed {
            error: Error::from(error),
        }
    }
}

impl<T: Drop> From<AllocFailed<T>> for Unparsed {
    ghost use Rattle.command_line.specs.Parsed.{IsMemory};

    ghost from_gives = { λ _ u. IsMemory u };

    fn from(error: AllocFailed<T>) -> Unparsed {
        Unparsed {
            error: Error::from(error),
        }
    }
}

impl fmt::Display for Unparsed {
    fn fmt<W: fmt::Write>(&self, f: &mut fmt::Formatter<W>) -> fmt::Result {
        self.error.fmt(f)
    }
}
