//! Counts what a run takes. Nothing is proved of these numbers.

use crate::latencies::Latencies;
use osd::{Config, DeliveryMode, Fate, Gate};
use std::alloc::Global;
use std::sync::atomic::{AtomicBool, AtomicU64, Ordering};
use std::time::{Clock, Duration};
use std::{fmt, thread};

/// Nanoseconds of a second.
const SECOND: u64 = 1_000_000_000;

/// Nanoseconds of a microsecond.
const MICROSECOND: u64 = 1_000;

/// The number of looks in a row at which workers had taken nothing more, after which the first call
/// is made: memory was refused to an operation of the first maps, or there were further maps.
const QUIET_LOOKS: u32 = 100;

/// The most looks before the first call, and the milliseconds between two of them.
const LOOKS: u32 = 2_000;

const BETWEEN_LOOKS: u64 = 1;

/// The number of operations that workers take until each group has learned its first map, if none
/// is lost. Of each group's acting nodes each takes the map, each but the primary an Install, which
/// the primary is told of by each, and the primary the monitors' Activated. All messages that nodes
/// send meanwhile go out before the last of these operations is taken.
pub(crate) fn first_operations(config: &Config) -> u64 {
    let acting = config.nodes.min(config.replicas as u64);
    let of_group = acting.saturating_mul(3).saturating_sub(1);
    config.groups.saturating_mul(of_group)
}

/// The counts of a run, from its first call on. All threads that play it add to them; they are
/// shown as ten lines. Counts are modulo 2^64.
#[derive(Drop)]
pub struct Figures {
    /// True if the first call has begun, and when that was, in nanoseconds of the clock.
    has_begun: AtomicBool,
    /// True if all calls were made and printed.
    are_made: AtomicBool,
    start: AtomicU64,
    calls: AtomicU64,
    /// The nanoseconds of all calls, and of the longest.
    nanoseconds: AtomicU64,
    worst: AtomicU64,
    /// How many calls took how long.
    latencies: Latencies,
    /// When the last map began to be made and when the last answer came, in nanoseconds of the
    /// clock; 2^64 - 1 and 0 before the first.
    mapped: AtomicU64,
    answered: AtomicU64,
    /// The nanoseconds of the run.
    whole: AtomicU64,
    /// The operations that workers took, the requests among them, and the messages that nodes sent.
    operations: AtomicU64,
    requests: AtomicU64,
    messages: AtomicU64,
    nudges: AtomicU64,
}

/// Adds to a count.
fn add(count: &AtomicU64, more: u64) {
    count.fetch_add(more, Ordering::SeqCst);
}

/// The nanoseconds that the clock shows, if it can be read.
pub(crate) fn now<C: Clock>(clock: &C) -> Option<u64> {
    match clock.monotonic() {
        Ok(time) => Some(time.as_nanos().min(u128::from(u64::MAX)) as u64),
        Err(_) => None,
    }
}

/// The same; 0 if it can't be read.
pub(crate) fn shown_by<C: Clock>(clock: &C) -> u64 {
    now(clock).unwrap_or(0)
}

/// The nanoseconds between two moments; 0 if one isn't known.
fn between(start: Option<u64>, end: Option<u64>) -> u64 {
    match (start, end) {
        (Some(start), Some(end)) => end.saturating_sub(start),
        _ => 0,
    }
}

/// The rate a second of that many in those nanoseconds; 0 if these are none.
fn rate(count: u64, nanoseconds: u64) -> u128 {
    if nanoseconds == 0 {
        return 0;
    }
    u128::from(count) * u128::from(SECOND) / u128::from(nanoseconds)
}

impl Figures {
    /// Of no run. If memory for them is refused, the times that half and 99 of 100 calls take at most
    /// are 0.
    pub fn new(alloc: Global) -> Figures {
        Figures {
            has_begun: AtomicBool::new(false),
            are_made: AtomicBool::new(false),
            start: AtomicU64::new(0),
            calls: AtomicU64::new(0),
            nanoseconds: AtomicU64::new(0),
            worst: AtomicU64::new(0),
            latencies: Latencies::new(alloc),
            mapped: AtomicU64::new(u64::MAX),
            answered: AtomicU64::new(0),
            whole: AtomicU64::new(0),
            operations: AtomicU64::new(0),
            requests: AtomicU64::new(0),
            messages: AtomicU64::new(0),
            nudges: AtomicU64::new(0),
        }
    }

    /// Notes that the first call begins, if none has begun: what was sent up to it isn't counted.
    /// So that this is all that the groups' first maps take, it waits until workers have taken that
    /// many operations, which they bring. Of a further map nobody knows how many it brings: then it
    /// waits until workers have taken nothing for a tenth of a second. It doesn't wait without end.
    pub fn begin<C: Clock>(&self, clock: &C, first: u64) {
        if self.has_begun.load(Ordering::SeqCst) {
            return;
        }
        let has_further = self.mapped.load(Ordering::SeqCst) != u64::MAX;
        self.wait_until_taken(clock, if has_further { u64::MAX } else { first });
        self.start.store(shown_by(clock), Ordering::SeqCst);
        self.has_begun.store(true, Ordering::SeqCst);
    }

    /// Sleeps until workers have taken that many operations, or, after the first one, none for a
    /// tenth of a second.
    fn wait_until_taken<C: Clock>(&self, clock: &C, wanted: u64) {
        let mut seen = 0;
        let mut quiet = 0;
        for _ in 0..LOOKS {
            let taken = self.operations.load(Ordering::SeqCst);
            if taken >= wanted || quiet == QUIET_LOOKS {
                return;
            }
            quiet = if taken == seen && taken > 0 {
                quiet.saturating_add(1)
            } else {
                0
            };
            seen = taken;
            thread::sleep(clock, Duration::from_millis(BETWEEN_LOOKS));
        }
    }

    /// Notes that a call began then, if the clock could be read, and has ended.
    pub fn note_call<C: Clock>(&self, clock: &C, start: Option<u64>) {
        let end = now(clock);
        let nanoseconds = between(start, end);
        add(&self.calls, 1);
        add(&self.nanoseconds, nanoseconds);
        self.worst.fetch_max(nanoseconds, Ordering::SeqCst);
        self.latencies.note(nanoseconds);
        self.answered.fetch_max(end.unwrap_or(0), Ordering::SeqCst);
    }

    /// Notes that a map is about to be made.
    pub fn note_map<C: Clock>(&self, clock: &C) {
        self.mapped
            .store(now(clock).unwrap_or(u64::MAX), Ordering::SeqCst);
    }

    /// The nanoseconds from the last map to the last answer; 0 if no answer came after it, or no
    /// map was made.
    fn since_map(&self) -> u64 {
        let mapped = self.mapped.load(Ordering::SeqCst);
        self.answered.load(Ordering::SeqCst).saturating_sub(mapped)
    }

    /// The number of calls that have ended.
    pub(crate) fn calls(&self) -> u64 {
        self.calls.load(Ordering::SeqCst)
    }

    /// Notes the nudges of a client.
    pub fn note_nudges(&self, nudges: u64) {
        add(&self.nudges, nudges);
    }

    /// Notes that all calls were made and printed.
    pub(crate) fn note_made(&self) {
        self.are_made.store(true, Ordering::SeqCst);
    }

    /// True if all calls were made and printed, so that these are their figures.
    pub fn are_made(&self) -> bool {
        self.are_made.load(Ordering::SeqCst)
    }

    /// Notes that the run has ended.
    pub fn note_whole<C: Clock>(&self, clock: &C) {
        let start = self.start.load(Ordering::SeqCst);
        let whole = shown_by(clock).saturating_sub(start);
        self.whole.store(whole, Ordering::SeqCst);
    }
}

/// Counts what workers take, and the clients' requests among it.
impl Gate for Figures {
    fn before(&self, number: u64) {
        add(&self.operations, 1);
        if number != 0 {
            add(&self.requests, 1);
        }
    }

    fn may_keep(&self) -> bool {
        false
    }
}

/// Counts what nodes send from the first call on, and lets all pass.
impl Fate for Figures {
    fn of(&self, _worker: usize, _n: u64) -> DeliveryMode {
        if self.has_begun.load(Ordering::SeqCst) {
            add(&self.messages, 1);
        }
        DeliveryMode::Pass
    }
}

impl fmt::Display for Figures {
    fn fmt<W: fmt::Write>(&self, f: &mut fmt::Formatter<W>) -> fmt::Result {
        let calls = self.calls.load(Ordering::SeqCst);
        let rate = rate(calls, self.whole.load(Ordering::SeqCst));
        let mean = self.nanoseconds.load(Ordering::SeqCst) / calls.max(1) / MICROSECOND;
        let median = self.latencies.within(calls, 50) / MICROSECOND;
        let most = self.latencies.within(calls, 99) / MICROSECOND;
        let worst = self.worst.load(Ordering::SeqCst) / MICROSECOND;
        let since_map = self.since_map() / MICROSECOND;
        let messages = self.messages.load(Ordering::SeqCst);
        let repeats = self.requests.load(Ordering::SeqCst).saturating_sub(calls);
        let nudges = self.nudges.load(Ordering::SeqCst);
        write!(f, "calls {calls}\ncalls a second {rate}\n")?;
        write!(
            f,
            "mean microseconds {mean}\nmedian microseconds {median}\n"
        )?;
        write!(f, "99 % microseconds {most}\nworst microseconds {worst}\n")?;
        write!(f, "map to last answer microseconds {since_map}\n")?;
        write!(
            f,
            "messages {messages}\nrepeats {repeats}\nnudges {nudges}\n"
        )
    }
}
