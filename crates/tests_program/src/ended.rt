use crate::folder::{Folder, TWO};
use program_files::Printer;
use radoscls_program::program;
use std::alloc::{AllocError, Global};
use std::process::Abort;
use std::sync::Wait;
use std::thread::Threads;
use std::time::Clock;

/// The end of a run: its status, and what it wrote to standard output and to standard error.
#[derive(Drop)]
pub struct Ended {
    pub status: u8,
    pub printed: Vec<u8>,
    pub explained: Vec<u8>,
}

impl Ended {
    /// True if that was printed, nothing was explained, and the status is that.
    fn shows(&self, printed: &str, status: u8) -> bool {
        self.status == status
            && self.printed.as_slice() == printed.as_bytes()
            && self.explained.is_empty()
    }
}

/// The program's name, and those words after it.
fn line_of<'a>(alloc: Global, words: &[&'a str]) -> Option<Vec<&'a str>> {
    let mut line = vec![in alloc; "radoscls"].ok()?;
    line.extend_from_slice(words).ok()?;
    Some(line)
}

/// Runs the program on those words after its name, and on that folder. None where memory lacks.
fn run_on<R: AllocGlobal + Threads + Wait + Clock + Sync>(
    rt: &R,
    words: &[&str],
    folder: &mut Folder,
) -> Option<Ended> {
    let line = line_of(rt.alloc(), words)?;
    let mut printed = Vec::new(rt.alloc());
    let mut explained = Vec::new(rt.alloc());
    let mut out = Printer::new(&mut printed);
    let status = program(rt, line.as_slice(), folder, &mut out, &mut explained);
    Some(Ended {
        status,
        printed,
        explained,
    })
}

/// True if the program on those words and that folder prints that, explains nothing, and ends with
/// that status.
pub fn prints_on<R: AllocGlobal + Threads + Wait + Clock + Sync>(
    rt: &R,
    words: &[&str],
    folder: &mut Folder,
    printed: &str,
    status: u8,
) -> bool {
    match run_on(rt, words, folder) {
        Some(ended) => ended.shows(printed, status),
        None => false,
    }
}

/// The same on a folder with that text, and no file is written.
pub fn only_prints<R: AllocGlobal + Threads + Wait + Clock + Sync>(
    rt: &R,
    words: &[&str],
    text: &[u8],
    printed: &str,
    status: u8,
) -> bool {
    let Some(mut folder) = Folder::of(rt.alloc(), TWO, text) else {
        return false;
    };
    prints_on(rt, words, &mut folder, printed, status) && folder.writes == 0
}

/// The lines of a text that has ` / ` between them.
pub fn lines_of<R: Abort + AllocGlobal>(rt: &R, text: &str) -> String {
    let mut lines = text.replace(rt.alloc(), " / ", "\n").expect(rt, "memory");
    lines.push('\n').expect(rt, "memory");
    lines
}

/// A text that begins with the first part, has the next that many times, and ends with the last.
pub fn with_repeated(
    alloc: Global,
    first: &str,
    part: &str,
    count: usize,
    last: &str,
) -> Result<String, AllocError> {
    let mut text = String::from_str(alloc, first)?;
    for _ in 0..count {
        text.push_str(part)?;
    }
    text.push_str(last)?;
    Ok(text)
}
