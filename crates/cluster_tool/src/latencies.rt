//! How long calls take, by the share of them. Nothing is proved of it.

use std::alloc::{AllocError, Global};
use std::sync::atomic::{AtomicU64, Ordering};

/// A class of times below this is one number of nanoseconds.
const FINE: u64 = 32;

/// The classes in which times double.
const CLASSES: usize = 16;

/// The number of classes: those below `FINE`, and 16 for each time that 64 bits can double it.
const COUNT: usize = 976;

/// Counts of times, by classes that are at most a sixteenth of a time wide.
#[derive(Drop)]
pub(crate) struct Latencies {
    counts: Vec<AtomicU64>,
}

/// The class of a time.
fn class_of(nanoseconds: u64) -> usize {
    let mut rest = nanoseconds;
    let mut class: usize = 0;
    for _ in 0..64 {
        if rest < FINE {
            break;
        }
        rest /= 2;
        class = class.saturating_add(CLASSES);
    }
    class.saturating_add(rest as usize)
}

/// The shortest time of a class.
fn least_of(class: usize) -> u64 {
    let doubled = (class / CLASSES).saturating_sub(1);
    let mut nanoseconds = class.saturating_sub(doubled.saturating_mul(CLASSES)) as u64;
    for _ in 0..doubled {
        nanoseconds = nanoseconds.saturating_mul(2);
    }
    nanoseconds
}

/// So many counts of nothing.
fn counts(alloc: Global) -> Result<Vec<AtomicU64>, AllocError> {
    let mut counts = Vec::with_capacity(alloc, COUNT)?;
    for _ in 0..COUNT {
        counts.push(AtomicU64::new(0))?;
    }
    Ok(counts)
}

impl Latencies {
    /// Of no call. If memory is refused, none is counted.
    pub(crate) fn new(alloc: Global) -> Latencies {
        let counts = match counts(alloc) {
            Ok(counts) => counts,
            Err(_) => Vec::new(alloc),
        };
        Latencies { counts }
    }

    /// Counts a call that took so long.
    pub(crate) fn note(&self, nanoseconds: u64) {
        if let Some(count) = self.counts.get(class_of(nanoseconds)) {
            count.fetch_add(1, Ordering::SeqCst);
        }
    }

    /// The time that this many of 100 of the calls took at most, as far as their class tells it; 0
    /// if there are none.
    pub(crate) fn within(&self, calls: u64, percent: u64) -> u64 {
        let wanted = u128::from(calls).saturating_mul(u128::from(percent));
        let mut seen: u128 = 0;
        for (class, count) in self.counts.iter().enumerate() {
            seen = seen.saturating_add(u128::from(count.load(Ordering::SeqCst)));
            if seen > 0 && seen.saturating_mul(100) >= wanted {
                return least_of(class);
            }
        }
        0
    }
}
