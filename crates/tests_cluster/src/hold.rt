//! What holds a thread, and waits for one.

use std::sync::atomic::{AtomicBool, AtomicU64, Ordering};
use std::thread::yield_now;

/// The turns that a test waits before it fails: only a fault reaches them, however busy the machine
/// is.
pub const TURNS: u32 = 30_000_000;

/// The turns for which somebody is held at most.
const HELD: u32 = 20_000_000;

/// The turns in which another thread does what it can.
const PAUSE: u32 = 2_000;

/// Waits until the counter is at that number or past it. False if that takes too long.
pub fn reaches(counter: &AtomicU64, number: u64) -> bool {
    for _ in 0..TURNS {
        if counter.load(Ordering::SeqCst) >= number {
            return true;
        }
        yield_now();
    }
    false
}

/// Gives the other threads some turns.
pub fn pause() {
    for _ in 0..PAUSE {
        yield_now();
    }
}

/// Where somebody is held once, until it is let go.
#[derive(Drop)]
pub struct Hold {
    is_wanted: AtomicBool,
    /// 1 once somebody has come, and once it was let go.
    came: AtomicU64,
    freed: AtomicU64,
    /// It was let go by the end of its turns.
    ran_out: AtomicBool,
}

impl Hold {
    pub fn new() -> Hold {
        Hold {
            is_wanted: AtomicBool::new(false),
            came: AtomicU64::new(0),
            freed: AtomicU64::new(0),
            ran_out: AtomicBool::new(false),
        }
    }

    /// Who comes first from now on is held.
    pub fn want(&self) -> bool {
        self.is_wanted.store(true, Ordering::SeqCst);
        true
    }

    /// Waits until somebody is held. False if that takes too long.
    pub fn holds(&self) -> bool {
        reaches(&self.came, 1)
    }

    /// Lets it go. True if it was held up to now.
    pub fn free(&self) -> bool {
        self.freed.store(1, Ordering::SeqCst);
        self.came.load(Ordering::SeqCst) == 1 && !self.ran_out.load(Ordering::SeqCst)
    }

    /// Comes here.
    pub fn pass(&self) {
        if !self.is_wanted.swap(false, Ordering::SeqCst) {
            return;
        }
        self.came.store(1, Ordering::SeqCst);
        for _ in 0..HELD {
            if self.freed.load(Ordering::SeqCst) == 1 {
                return;
            }
            yield_now();
        }
        self.ran_out.store(true, Ordering::SeqCst);
    }
}
