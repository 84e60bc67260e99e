//! What `cluster --stats` writes, by a clock that is made.

use cluster_tool::{Figures, Meter};
use osd::{DeliveryMode, Fate, Gate};
use std::cell::Cell;
use std::io::{self, ErrorKind};
use std::process::Abort;
use std::time::{Clock, Duration};

/// A clock that is read at these nanoseconds, one after another, and can't be read after the last.
#[derive(Drop)]
struct Readings {
    nanoseconds: &'static [u64],
    next: Cell<usize>,
}

impl Clock for Readings {
    fn monotonic(&self) -> io::Result<Duration> {
        let at = self.next.get();
        self.next.set(at.wrapping_add(1));
        match self.nanoseconds.get(at) {
            Some(time) => Ok(Duration::from_nanos(*time)),
            None => Err(io::Error::from(ErrorKind::NotFound)),
        }
    }

    fn since_1970(&self) -> io::Result<Duration> {
        self.monotonic()
    }
}

/// The clock's readings in a run of two seconds with three calls, of 3,500, 9,999 and 0
/// nanoseconds, and maps after the first two calls: the beginnings and ends of calls and the moments
/// of maps are between the beginning and the end of the run.
#[rattlefmt::skip]
static RUN: [u64; 10] = [1_000, 2_000, 5_500, 6_000, 10_000, 19_999, 22_900, 30_000, 30_000, 2_000_001_000];

/// Seven operations: a client's request is the client's number times 2^32, and its own.
#[rattlefmt::skip]
static OPERATIONS: [u64; 7] = [0, 0x1_0000_0001, 0x1_0000_0001, 0, 0x2_0000_0001, 0x1_0000_0002, 0x1_0000_0002];

/// The nanoseconds that the clock reads.
fn now(clock: &Readings) -> Option<u64> {
    let time = clock.monotonic().ok()?;
    Some(time.as_nanos().min(u128::from(u64::MAX)) as u64)
}

/// Three calls, of which the second took longest, and the third ends 7,100 nanoseconds after the
/// last map; five requests among seven operations, and four messages.
#[test]
fn figures_are_shown(rt: HostRuntime) {
    let clock = Readings {
        nanoseconds: &RUN,
        next: Cell::new(0),
    };
    let figures = Figures::new(rt.alloc());
    // what comes before the first call isn't counted, and there is one first call. It doesn't wait
    // without end for a second operation, which was lost
    figures.before(0);
    assert!(&rt; figures.of(0, 0) == DeliveryMode::Pass);
    figures.begin(&clock, 2);
    figures.begin(&clock, 2);
    for call in 0..3 {
        if call > 0 {
            figures.note_map(&clock);
        }
        let start = now(&clock);
        figures.note_call(&clock, start);
    }
    figures.note_whole(&clock);
    for number in OPERATIONS {
        figures.before(number);
    }
    for n in 0..4 {
        assert!(&rt; figures.of(0, n) == DeliveryMode::Pass);
    }
    figures.note_nudges(2);
    figures.note_nudges(3);
    let shown = figures.to_string(rt.alloc()).expect(&rt, "memory");
    let wanted = "calls 3\ncalls a second 1\nmean microseconds 4\nmedian microseconds 3\n\
    99 % microseconds 9\nworst microseconds 9\nmap to last answer microseconds \
    7\nmessages 4\nrepeats 2\nnudges 5\n";
    assert!(&rt; shown.as_str() == wanted);
}

/// A clock by whose sleeps workers get on: during each of the first ones a node sends a message, and
/// a worker takes an operation.
#[derive(Drop)]
struct Sleeps<'a> {
    figures: &'a Figures,
    /// The operations that are left.
    left: Cell<u64>,
    /// The sleeps up to now.
    slept: Cell<u64>,
}

impl Clock for Sleeps<'_> {
    fn monotonic(&self) -> io::Result<Duration> {
        Ok(Duration::ZERO)
    }

    fn since_1970(&self) -> io::Result<Duration> {
        Ok(Duration::ZERO)
    }

    fn sleep(&self, _duration: Duration) {
        self.slept.set(self.slept.get().wrapping_add(1));
        let left = self.left.get();
        if left > 0 {
            self.left.set(left.wrapping_sub(1));
            let _ = self.figures.of(0, 0);
            self.figures.before(0);
        }
    }
}

/// The operations that workers take, the number that the first maps bring, and whether a further map
/// comes before the first call; the sleeps before it, at least and at most.
type Waiting = (u64, u64, bool, u64, u64);

/// All are taken; one is lost, or all are; nobody knows how many a further map brings.
#[rattlefmt::skip]
const WAITS: [Waiting; 4] = [
    (8, 8, false, 8, 8),
    (7, 8, false, 107, 120),
    (0, 8, false, 100, 2_000),
    (8, 5, true, 108, 120),
];

/// True if the first call waits that long, and what is sent before it isn't counted.
fn waits<R: Abort + AllocGlobal>(rt: &R, row: &Waiting) -> bool {
    let (taken, first, has_further, least, most) = *row;
    let figures = Figures::new(rt.alloc());
    let clock = Sleeps {
        figures: &figures,
        left: Cell::new(taken),
        slept: Cell::new(0),
    };
    if has_further {
        figures.note_map(&clock);
    }
    figures.begin(&clock, first);
    let slept = clock.slept.get();
    drop(clock);
    let shown = figures.to_string(rt.alloc()).expect(rt, "memory");
    least <= slept && slept <= most && shown.as_str().contains("messages 0\n")
}

#[test]
fn the_first_call_waits_for_the_first_maps(rt: HostRuntime) {
    for row in &WAITS {
        assert!(&rt; waits(&rt, row), "{}", row.0);
    }
}

/// Without a clock times are 0. A call that no worker took is no repeat.
#[test]
fn figures_without_a_clock(rt: HostRuntime) {
    let clock = Readings {
        nanoseconds: &[],
        next: Cell::new(0),
    };
    let figures = Figures::new(rt.alloc());
    figures.note_map(&clock);
    figures.note_call(&clock, now(&clock));
    figures.note_whole(&clock);
    let shown = figures.to_string(rt.alloc()).expect(&rt, "memory");
    let wanted = "calls 1\ncalls a second 0\nmean microseconds 0\nmedian microseconds 0\n\
    99 % microseconds 0\nworst microseconds 0\nmap to last answer microseconds \
    0\nmessages 0\nrepeats 0\nnudges 0\n";
    assert!(&rt; shown.as_str() == wanted);
}

/// The clock's readings as a run begins, as a call ends and at the first look, as two calls end and at
/// the second look, at the third, and as a call ends and at the fourth.
#[rattlefmt::skip]
static LOOKS: [u64; 9] = [
    1_000_000, 100_000_000, 101_000_000, 900_000_000, 1_000_000_000, 1_001_000_000, 1_500_000_000, 2_000_000_000,
    2_001_000_000,
];

/// The first look comes after 64 steps, and each further one after twice as many until a part of the
/// steps takes an eighth of a second; a line comes once a second has passed since the last.
#[test]
fn a_line_a_second_is_told(rt: HostRuntime) {
    let clock = Readings {
        nanoseconds: &LOOKS,
        next: Cell::new(0),
    };
    let figures = Figures::new(rt.alloc());
    let mut told = Vec::new(rt.alloc());
    let mut meter = Meter::new(&figures, Some(&mut told));
    meter.begin(&clock, 10);
    assert!(&rt; !meter.is_due(63) && meter.is_due(64));
    figures.note_call(&clock, None);
    meter.look(&clock);
    assert!(&rt; !meter.is_due(127) && meter.is_due(128));
    figures.note_call(&clock, None);
    figures.note_call(&clock, None);
    meter.look(&clock);
    assert!(&rt; !meter.is_due(127) && meter.is_due(128));
    meter.look(&clock);
    figures.note_call(&clock, None);
    meter.look(&clock);
    drop(meter);
    assert!(&rt; told.as_slice() == b"answered 3 of 10\nanswered 4 of 10\n".as_slice());
}

/// In place, a line is written over the one before, and the last one is ended once.
#[test]
fn a_line_is_told_in_place(rt: HostRuntime) {
    let clock = Readings {
        nanoseconds: &LOOKS,
        next: Cell::new(0),
    };
    let figures = Figures::new(rt.alloc());
    let mut told = Vec::new(rt.alloc());
    let mut meter = Meter::new(&figures, Some(&mut told));
    meter.tell_in_place();
    meter.begin(&clock, 3);
    meter.end();
    figures.note_call(&clock, None);
    meter.look(&clock);
    figures.note_call(&clock, None);
    figures.note_call(&clock, None);
    meter.look(&clock);
    meter.end();
    meter.end();
    drop(meter);
    assert!(&rt; told.as_slice() == b"\ranswered 3 of 3\ranswered 3 of 3\n".as_slice());
}

/// Where no line is wanted, no clock is looked at.
#[test]
fn no_line_is_told_unasked(rt: HostRuntime) {
    let figures = Figures::new(rt.alloc());
    let meter = Meter::<Vec<u8>>::new(&figures, None);
    assert!(&rt; !meter.is_due(usize::MAX));
}
