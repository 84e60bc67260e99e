use crate::folder::{Folder, TWO};
use program_files::Printer;
use radoscls_program::program;
use std::io::{self, ErrorKind, Write};
use std::process::Abort;
use std::sync::Wait;
use std::thread::Threads;
use std::time::Clock;

/// A writer with room for some bytes, which can let them through or can't.
#[derive(Drop)]
struct Limited {
    room: usize,
    flushes: bool,
}

impl Write for Limited {
    fn write(&mut self, buf: &[u8]) -> io::Result<usize> {
        if buf.len() > self.room {
            return Err(io::Error::from(ErrorKind::StorageFull));
        }
        self.room -= buf.len();
        Ok(buf.len())
    }

    fn flush(&mut self) -> io::Result<()> {
        if self.flushes {
            Ok(())
        } else {
            Err(io::Error::from(ErrorKind::BrokenPipe))
        }
    }
}

/// The program's name and words after it, the room of standard output, whether it flushes, and the
/// status.
type Row = (&'static [&'static str], usize, bool, u8);

/// `f ok 2` and the line feed are seven bytes.
static LIMITS: [Row; 6] = [
    (&["radoscls", "verify", "image"], 0, true, 1),
    (&["radoscls", "verify", "image"], 6, true, 1),
    (&["radoscls", "verify", "image"], 7, true, 0),
    (&["radoscls", "verify", "image"], 7, false, 1),
    (&["radoscls", "asm", "text", "out"], 0, false, 1),
    (&["radoscls"], 0, true, 2),
];

const SIM: &[&str] = &["radoscls", "sim", "text"];

/// Two events of which each prints 13 bytes.
static EVENTS: [Row; 5] = [
    (SIM, 12, true, 1),
    (SIM, 13, true, 1),
    (SIM, 25, true, 1),
    (SIM, 26, true, 0),
    (SIM, 26, false, 1),
];

/// True if the program ends as a row tells on that text, with standard output so limited, and
/// standard output has failed if the status is 1.
fn ends_with<R: Abort + AllocGlobal + Threads + Wait + Clock + Sync>(
    rt: &R,
    text: &str,
    row: Row,
) -> bool {
    let (words, room, flushes, want) = row;
    let mut err = Limited { room: 0, flushes };
    let mut folder = Folder::of(rt.alloc(), TWO, text.as_bytes()).expect(rt, "memory");
    let mut out = Printer::new(Limited { room, flushes });
    let status = program(rt, words, &mut folder, &mut out, &mut err);
    status == want && out.has_failed() == (want == 1)
}

/// Each row ends as it tells.
fn all_end<R: Abort + AllocGlobal + Threads + Wait + Clock + Sync>(
    rt: &R,
    text: &str,
    rows: &[Row],
) {
    for row in rows {
        assert!(rt; ends_with(rt, text, *row), "{}", row.1);
    }
}

#[test]
fn an_event_fails_where_standard_output_does(rt: HostRuntime) {
    all_end(&rt, "map 1\nmap 2\n", &EVENTS);
}

#[test]
fn fails_where_standard_output_does(rt: HostRuntime) {
    all_end(&rt, ".method f r 0 0\nexit\n", &LIMITS);
}
