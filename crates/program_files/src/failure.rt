ghost use Rattle.std.specs.Prelude.{◌≡◌, ◌≢◌, ◌↔◌};
ghost use Rattle.std.specs.IoError.{error_kind};
ghost use Rattle.program_files.specs.declared.failure.Failure.TheVariants.{NoMemory};

use bpf_asm::AsmError;
use bpf_decode::ImageError;
use interp::CallError;
use object_store::StoreError;
use std::alloc::{AllocError, AllocFailed};
use std::error::Error;
use std::fmt;
use std::io::{self, ErrorKind};
use verifier::Refusal;

/// Why what is asked for was not done. It prints as one line, without its end.
#[derive(Clone, Copy, Debug, PartialEq, Eq)]
pub enum Failure {
    /// A file could not be read, or is no text.
    CannotRead,
    /// A file could not be written.
    CannotWrite,
    /// The program itself ran out of memory.
    NoMemory,
    /// The text has more bytes than a class's may have.
    TextTooLong,
    /// The file is no class's text.
    Text(AsmError),
    /// The file is no class image.
    Image(ImageError),
    /// A method of the class is not safe.
    Verdict(Refusal),
    /// The input is not pairs of hexadecimal digits.
    InputNotHex,
    /// A part of the object is not pairs of hexadecimal digits.
    ObjectNotHex,
    /// The line of that number, from 1, of the text that spells the object.
    ObjectLine(usize),
    /// There is no such object.
    Object(StoreError),
    /// The call was not made, or not logged.
    Call(CallError),
    /// A call by an OSD's limits looks at more of the object than it can be handed in.
    CallFull,
}

impl Failure {
    /// The failure that a failed read is: want of memory, or a file that cannot be read.
    pub fn of_read(error: &io::Error) -> Failure
        ensures no_memory { (result ≡ Failure.NoMemory) ↔ (error_kind error.now ≡ ErrorKind.OutOfMemory) }
        ensures other { result ≢ Failure.NoMemory → result ≡ Failure.CannotRead }
    {
        match error.kind() {
            ErrorKind::OutOfMemory => Failure::NoMemory,
            _ => Failure::CannotRead,
        }
    }
}

impl fmt::Display for Failure {
    ghost use Rattle.std.specs.Prelude.{Some};
    ghost use Rattle.program_files.specs.Failure.{failure_text};

    ghost output = { λ failure. Some (failure_text failure) };

    fn fmt<W: fmt::Write>(&self, f: &mut fmt::Formatter<W>) -> fmt::Result {
        match self {
            Failure::CannotRead => f.write_str("cannot read"),
            Failure::CannotWrite => f.write_str("cannot write"),
            Failure::NoMemory => f.write_str("no memory"),
            Failure::TextTooLong => f.write_str("text too long: at most 16777216 bytes"),
            Failure::Text(error) => error.fmt(f),
            Failure::Image(error) => error.fmt(f),
            Failure::Verdict(refusal) => refusal.fmt(f),
            Failure::InputNotHex => f.write_str("input is not hex"),
            Failure::ObjectNotHex => f.write_str("object is not hex"),
            Failure::ObjectLine(line) => write!(f, "object line {line}: bad"),
            Failure::Object(error) => write!(f, "object refused: {error}"),
            Failure::Call(error) => write!(f, "call refused: {error}"),
            Failure::CallFull => f.write_str("call refused: 4 Full"),
        }
    }
}

impl Error for Failure {}

impl From<AllocError> for Failure {
    ghost from_gives = { λ _ e. e ≡ NoMemory };

    fn from(_error: AllocError) -> Failure {
        Failure::NoMemory
    }
}

impl<T: Drop> From<AllocFailed<T>> for Failure {
    ghost from_gives = { λ _ e. e ≡ NoMemory };

    fn from(_error: AllocFailed<T>) -> Failure {
        Failure::NoMemory
    }
}
