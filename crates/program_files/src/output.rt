ghost use Rattle.std.specs.Prelude.{◌≡◌, ℕ, List, Option, None, Bool, true, false, OnOk, OnErr, IfOk, IfSome, IsOk};
ghost use Rattle.std.specs.Prelude.{IsErr, take, drop};
ghost use Rattle.std.specs.Io.KnownBytes.{Appends};
ghost use Rattle.program_files.specs.Output.{Begins};
ghost use Rattle.program_files.specs.Window.{shown};

use crate::window::{ROOM, Window};
use std::fmt::Write;
use std::io::ErrorKind;
use std::{fmt, io};

/// Where lines are printed.
pub trait Output {
    // The text that was printed, if that is known.
    ghost printed: { Self → Option (List ℕ) } = { λ _. None };

    // True if a write or a flush of it failed.
    ghost failed: { Self → Bool };

    /// Prints a whole text, and lets nothing of it wait. It fails exactly if a write or a flush
    /// does, which `failed` tells from then on; then a beginning of the text was printed.
    fn print<D: fmt::Display + Drop>(&mut self, text: D) -> io::Result<()>
        ensures printed { OnOk result (IfSome (D.output text) (Appends (printed self.old) (printed self.new))) }
        ensures begun { OnErr result (IfSome (D.output text) (Begins (printed self.old) (printed self.new))) }
        ensures took { IsOk result → failed self.new ≡ failed self.old }
        ensures lost { IsErr result → failed self.new ≡ true };
}

/// A writer, and whether a write or a flush of it failed.
#[derive(Drop)]
pub struct Printer<W> {
    writer: W,
    failed: bool,
}

impl<W: io::Write> Printer<W> {
    ghost use Rattle.program_files.specs.Output.{has_failed, writer_of};

    /// A writer of which nothing failed.
    pub fn new(writer: W) -> Printer<W>
        ensures writer { writer_of result ≡ writer }
        ensures failed { has_failed result ≡ false }
    {
        Printer {
            writer,
            failed: false,
        }
    }

    /// True if a write or a flush failed.
    pub fn has_failed(&self) -> bool
        ensures { result ≡ has_failed self.now }
    {
        self.failed
    }
}

impl<W: io::Write> Output for Printer<W> {
    ghost use Rattle.program_files.specs.Output.{has_failed, writer_of};

    ghost printed = { λ p. W.contents (writer_of p) };

    ghost failed = { λ p. has_failed p };

    fn print<D: fmt::Display + Drop>(&mut self, text: D) -> io::Result<()> {
        let printed = print_whole(&mut self.writer, text);
        if printed.is_err() {
            self.failed = true;
        }
        printed
    }
}

/// Writes bytes. If a write fails, a beginning of them was written.
fn write_bytes<W: io::Write>(writer: &mut W, bytes: &[u8]) -> io::Result<()>
    ensures all { OnOk result (Appends (W.contents writer.old) (W.contents writer.new) bytes.now) }
    ensures begun { OnErr result (Begins (W.contents writer.old) (W.contents writer.new) bytes.now) }
{
    let mut at = 0;
    for _ in 0..u64::MAX {
        if at == bytes.len() {
            return Ok(());
        }
        match writer.write(&bytes[at..]) {
            Ok(0) => return Err(io::Error::from(ErrorKind::WriteZero)),
            Ok(count) => at += count,
            Err(error) => {
                if error.kind() != ErrorKind::Interrupted {
                    return Err(error);
                }
            }
        }
    }
    Err(io::Error::from(ErrorKind::TimedOut))
}

/// The bytes of a text after that many, as far as a window shows them.
fn window_of<D: fmt::Display>(text: &D, skip: usize) -> Result<Window, fmt::Error>
    ensures { IfOk result (λ w. IfSome (D.output text.now) (λ t. shown w ≡ take 1024 (drop skip t))) }
{
    let mut window = Window::after(skip);
    window.write(text)?;
    Ok(window)
}

/// Writes a whole text, a window of it after the other, and flushes it. If that fails, a
/// beginning of it was written. A text that fits into a window is formatted once; a longer one once
/// for each, so that nothing is written of one whose formatting fails midway.
fn print_whole<W: io::Write, D: fmt::Display + Drop>(writer: &mut W, text: D) -> io::Result<()>
    ensures all { OnOk result (IfSome (D.output text) (Appends (W.contents writer.old) (W.contents writer.new))) }
    ensures begun { OnErr result (IfSome (D.output text) (Begins (W.contents writer.old) (W.contents writer.new))) }
{
    let mut written = 0;
    for _ in 0..u64::MAX {
        let window = window_of(&text, written)?;
        write_bytes(writer, window.shown())?;
        if window.shown().len() < ROOM {
            return writer.flush();
        }
        match written.checked_add(ROOM) {
            Some(more) => written = more,
            None => return Err(io::Error::from(ErrorKind::FileTooLarge)),
        }
    }
    Err(io::Error::from(ErrorKind::TimedOut))
}
