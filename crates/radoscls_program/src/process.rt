//! The program on the words and files of its process.

ghost use Rattle.std.specs.IoError.{error_kind};
ghost use Rattle.std.specs.Prelude.{◌≡◌, ◌↔◌, IfOk, IfErr, map, string_bytes};
ghost use Rattle.std.specs.Process.{exit_status};
ghost use Rattle.radoscls_program.specs.Change.{changed};
ghost use Rattle.radoscls_program.specs.Program.{Ends, IsUnstarted, Starts};
ghost use Rattle.program_files.specs.Files.{Storage, storage, unwritten};
ghost use Rattle.radoscls_program.specs.Status.{code_of};
ghost use Rattle.radoscls_program.specs.Streams.{stream};
ghost use Rattle.radoscls_program.specs.declared.status.ExitStatus.{ExitStatus as AStatus};

use crate::error_stream::ErrorStream;
use crate::folders::spelled_out;
use crate::perform::perform;
use crate::status::ExitStatus;
use crate::telling::refuse;
use program_files::{Failure, Output, SystemFiles};
use std::io::{ErrorKind, Input, IsTerminal};
use std::process::ExitCode;
use std::rt::{Env, Files};
use std::sync::Wait;
use std::thread::Threads;
use std::time::Clock;
use std::{env, io};

/// The message on words that are no text.
const NO_TEXT: &[u8] = b"error: invalid UTF-8 was detected in one or more arguments\n";

/// The words of the command line, of which the first is the program's own name; a folder of `verify`
/// is spelled out.
fn words<R: Env + Files + AllocGlobal + Clone + Drop>(rt: &R) -> io::Result<Vec<String>> {
    let words = env::args(rt)?.collect(rt.alloc())?;
    Ok(spelled_out(rt, words)?)
}

/// Says why there are no words: on `out` if memory for them was refused, and on `err`, as of
/// wrong words, if one of them is no text.
fn unstarted<O: Output, E: io::Write>(error: &io::Error, out: &mut O, err: &mut E) -> ExitStatus
    ensures unstarted { (files : Storage) →
        IsUnstarted (changed (λ (s : Storage). s) files files (stream O.printed O.failed) out.old out.new) result }
    ensures memory { (result ≡ ExitStatus.Refused) ↔ (error_kind error.now ≡ ErrorKind.OutOfMemory) }
{
    match error.kind() {
        ErrorKind::OutOfMemory => refuse(Failure::NoMemory, out),
        _ => {
            let _ = err.write_all(NO_TEXT);
            ExitStatus::Usage
        }
    }
}

/// Runs the program on those words, or says why there are none.
fn end_on<
    R: AllocGlobal + Threads + Wait + Clock + Sync,
    F: program_files::Files,
    O: Output,
    E: io::Write,
>(
    rt: &R,
    words: &io::Result<Vec<String>>,
    files: &mut F,
    out: &mut O,
    err: &mut ErrorStream<'_, E>,
) -> ExitStatus
    ensures asked { IfOk words.now (λ all. Ends (changed (storage F.disk F.failed F.in_place) files.old files.new
        (stream O.printed O.failed) out.old out.new) (map string_bytes all.items) result) }
    ensures unread { IfErr words.now (λ _. IsUnstarted (changed (storage F.disk F.failed F.in_place)
        files.old files.new (stream O.printed O.failed) out.old out.new) result) }
    ensures memory { IfErr words.now (λ e. (result ≡ ExitStatus.Refused) ↔ (error_kind e ≡ ErrorKind.OutOfMemory)) }
{
    match words {
        Ok(words) => perform(rt, words, files, out, err),
        Err(error) => unstarted(error, out, &mut *err.to),
    }
}

/// Runs the program on those words, or says why there are none: `program`, on words that may be
/// missing.
pub fn end_of<
    R: AllocGlobal + Threads + Wait + Clock + Sync,
    F: program_files::Files,
    O: Output,
    E: io::Write,
>(rt: &R, words: &io::Result<Vec<String>>, files: &mut F, out: &mut O, err: &mut E) -> ExitStatus
    ensures asked { IfOk words.now (λ all. Ends (changed (storage F.disk F.failed F.in_place) files.old files.new
        (stream O.printed O.failed) out.old out.new) (map string_bytes all.items) result) }
    ensures unread { IfErr words.now (λ _. IsUnstarted (changed (storage F.disk F.failed F.in_place)
        files.old files.new (stream O.printed O.failed) out.old out.new) result) }
    ensures memory { IfErr words.now (λ e. (result ≡ ExitStatus.Refused) ↔ (error_kind e ≡ ErrorKind.OutOfMemory)) }
{
    let mut err = ErrorStream {
        to: err,
        is_terminal: false,
    };
    end_on(rt, words, files, out, &mut err)
}

/// Runs `end_of` on the process's own words and files, and gives the number of its status:
/// `program`'s answer, or if the words could not be read 1 for want of memory, of which a line is
/// printed, and 2 for a word that is no text, which a line on `err` says. On a terminal, `cluster`
/// without `--stats` tells there how far it is. In the words a folder that `verify` is given stands
/// for the files of classes in it.
pub fn start<
    R: Env + Files + AllocGlobal + Input + Threads + Wait + Clock + Sync + Clone + Drop,
    O: Output,
    E: io::Write + IsTerminal,
>(rt: &R, out: &mut O, err: &mut E) -> ExitCode
    ensures { (status : AStatus) × (exit_status result ≡ code_of status) × (after : Storage) ×
        Starts (changed (λ (s : Storage). s) unwritten after (stream O.printed O.failed) out.old out.new) status }
{
    let mut files = SystemFiles::new(rt);
    let words = words(rt);
    let mut err = ErrorStream {
        is_terminal: err.is_terminal(),
        to: err,
    };
    let status = end_on(rt, &words, &mut files, out, &mut err);
    drop(words);
    ExitCode::from(status.code())
}
