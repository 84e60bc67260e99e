use crate::ended::prints_on;
use crate::folder::{Folder, TWO};
use program_files::Printer;
use radoscls_program::{ExitStatus, end_of, program};
use std::alloc::Global;
use std::io::{self, ErrorKind, Write};
use std::process::Abort;
use std::sync::Wait;
use std::thread::Threads;
use std::time::Clock;

/// A writer with room for some bytes, which takes some of them a time, and keeps them.
#[derive(Drop)]
struct Filling {
    room: usize,
    step: usize,
    taken: Vec<u8>,
}

impl Write for Filling {
    fn write(&mut self, buf: &[u8]) -> io::Result<usize> {
        let count = buf.len().min(self.step).min(self.room);
        if count == 0 && !buf.is_empty() {
            return Err(io::Error::from(ErrorKind::StorageFull));
        }
        self.taken.extend_from_slice(&buf[..count])?;
        self.room -= count;
        Ok(count)
    }

    fn flush(&mut self) -> io::Result<()> {
        Ok(())
    }
}

/// A class text: so many lines of 10 bytes, and so many of 11, between 16 bytes and 5.
fn text_of(alloc: Global, tens: usize, elevens: usize) -> io::Result<Vec<u8>> {
    let mut text = Vec::from_slice(alloc, b".method f r 0 0\n")?;
    for _ in 0..tens {
        text.extend_from_slice(b"mov r0, 0\n")?;
    }
    for _ in 0..elevens {
        text.extend_from_slice(b"mov r0, 10\n")?;
    }
    text.extend_from_slice(b"exit\n")?;
    Ok(text)
}

/// True if of the class in that text just its first bytes are printed, as many as there is room
/// for; and the program ends with 0 if that is the whole text, and else with 1.
fn prints_beginning<R: Abort + AllocGlobal + Threads + Wait + Clock + Sync>(
    rt: &R,
    text: &[u8],
    room: usize,
    step: usize,
) -> bool {
    let alloc = rt.alloc();
    let mut folder = Folder::of(alloc, TWO, text).expect(rt, "memory");
    let is_made = prints_on(rt, &["asm", "text", "image"], &mut folder, "", 0);
    let mut out = Filling {
        room,
        step,
        taken: Vec::new(alloc),
    };
    let mut err = Vec::new(alloc);
    let mut printer = Printer::new(&mut out);
    let words = ["radoscls", "dis", "image"];
    let status = program(rt, &words, &mut folder, &mut printer, &mut err);
    let has_failed = printer.has_failed();
    let is_whole = text.len() <= room;
    is_made
        && out.taken.as_slice() == &text[..text.len().min(room)]
        && status == u8::from(!is_whole)
        && has_failed != is_whole
}

/// The numbers of lines of 10 bytes and of 11, and the bytes of them all.
static TEXTS: [(usize, usize, usize); 4] = [
    // less than a window, one, less than two, two
    (2, 0, 41),
    (97, 3, 1_024),
    (200, 0, 2_021),
    (195, 7, 2_048),
];

/// Rooms: at the ends, and about a window's.
static ROOMS: [usize; 12] = [
    0, 1, 16, 40, 41, 1_023, 1_024, 1_025, 2_020, 2_021, 2_047, 2_048,
];

/// The most bytes that a write takes.
static STEPS: [usize; 3] = [1, 1_000, 4_096];

#[test]
fn prints_a_beginning(rt: HostRuntime) {
    for (tens, elevens, len) in TEXTS {
        let text = text_of(rt.alloc(), tens, elevens).expect(&rt, "memory");
        assert!(rt; text.len() == len);
        for room in ROOMS {
            for step in STEPS {
                assert!(rt;
                    prints_beginning(&rt, &text, room, step),
                    "{len} {room} {step}"
                );
            }
        }
    }
}

/// Why the words could not be read; the ending, and what is printed on standard output and on
/// standard error. The last line is clap's.
#[rattlefmt::skip]
static UNREAD: [(ErrorKind, ExitStatus, &str, &str); 2] = [
    (ErrorKind::OutOfMemory, ExitStatus::Refused, "no memory\n", ""),
    (ErrorKind::InvalidData, ExitStatus::Usage, "", "error: invalid UTF-8 was detected in one or more arguments\n"),
];

/// True if words that can't be read end so, and no file is written.
fn ends_unread<R: Abort + AllocGlobal + Threads + Wait + Clock + Sync>(
    rt: &R,
    kind: ErrorKind,
    want: ExitStatus,
    printed: &str,
    explained: &str,
) -> bool {
    let alloc = rt.alloc();
    let mut folder = Folder::of(alloc, TWO, b"").expect(rt, "memory");
    let mut out = Vec::new(alloc);
    let mut err = Vec::new(alloc);
    let words = Err(io::Error::from(kind));
    let status = end_of(
        rt,
        &words,
        &mut folder,
        &mut Printer::new(&mut out),
        &mut err,
    );
    status == want
        && out.as_slice() == printed.as_bytes()
        && err.as_slice() == explained.as_bytes()
        && folder.writes == 0
}

#[test]
fn tells_of_words_that_are_no_text(rt: HostRuntime) {
    for (kind, want, printed, explained) in UNREAD {
        assert!(rt; ends_unread(&rt, kind, want, printed, explained));
    }
}
