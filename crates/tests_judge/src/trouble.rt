//! The fate of a run's messages, and the numbers that its threads share.

use crate::plan::Numbers;
use osd::{DeliveryMode, Fate, Gate};
use std::sync::atomic::{AtomicBool, AtomicU32, AtomicU64, Ordering};
use std::thread::{sleep, yield_now};
use std::time::{Clock, Duration};

/// The number of turns that a request which is kept gives other threads.
const TURNS: u32 = 200;

/// The most looks of a thread that waits for the others, and the microseconds between two.
const LOOKS: u32 = 6_000_000;

const LOOK_MICROSECONDS: u64 = 50;

/// The threads of a run share its numbers, the fate of its messages, and how far all have come.
#[derive(Drop)]
pub struct Trouble {
    pub numbers: Numbers,
    /// Counts the beginnings and the ends of calls, in their order.
    ticks: AtomicU64,
    /// The number of callers that make calls in the trouble, and of those to be answered after it.
    calling: AtomicU32,
    ending: AtomicU32,
    /// No node is stopped any more, and the newest map has all nodes.
    is_calm: AtomicBool,
    lost: AtomicU64,
    doubled: AtomicU64,
    late: AtomicU64,
}

/// A count.
fn read(count: &AtomicU64) -> u64 {
    count.load(Ordering::SeqCst)
}

impl Trouble {
    /// Before a run of these numbers, with so many callers.
    pub fn new(numbers: Numbers, callers: u32) -> Trouble {
        Trouble {
            numbers,
            ticks: AtomicU64::new(0),
            calling: AtomicU32::new(callers),
            ending: AtomicU32::new(callers),
            is_calm: AtomicBool::new(false),
            lost: AtomicU64::new(0),
            doubled: AtomicU64::new(0),
            late: AtomicU64::new(0),
        }
    }

    /// The next number of what happens in the run.
    pub fn tick(&self) -> u64 {
        self.ticks.fetch_add(1, Ordering::SeqCst)
    }

    /// A caller has made its calls in the trouble.
    pub fn end_calling(&self) {
        self.calling.fetch_sub(1, Ordering::SeqCst);
    }

    /// True if a caller makes calls in the trouble.
    pub fn is_calling(&self) -> bool {
        self.calling.load(Ordering::SeqCst) != 0
    }

    /// A caller has made all its calls.
    pub fn end(&self) {
        self.ending.fetch_sub(1, Ordering::SeqCst);
    }

    /// True if a caller isn't done.
    pub fn is_ending(&self) -> bool {
        self.ending.load(Ordering::SeqCst) != 0
    }

    /// No node is stopped, and the newest map has all nodes.
    pub fn be_calm(&self) {
        self.is_calm.store(true, Ordering::SeqCst);
    }

    /// True if callers go on until a log is full, also after the trouble.
    pub fn goes_on(&self) -> bool {
        self.numbers.rounds > 1
    }

    /// True if callers make no more calls in the trouble, since it is over.
    pub fn is_over(&self) -> bool {
        self.is_calm.load(Ordering::SeqCst) && !self.goes_on()
    }

    /// Waits until the trouble is over. False where that doesn't come.
    pub fn waits_for_calm<C: Clock>(&self, clock: &C) -> bool {
        for _ in 0..LOOKS {
            if self.is_calm.load(Ordering::SeqCst) {
                return true;
            }
            sleep(clock, Duration::from_micros(LOOK_MICROSECONDS));
        }
        false
    }

    /// The numbers of messages that were lost, doubled and late.
    pub fn counts(&self) -> (u64, u64, u64) {
        (read(&self.lost), read(&self.doubled), read(&self.late))
    }

    /// A number below 1,024 that looks random, made of the run's seed and these numbers by
    /// splitmix64's finalizer.
    fn chance(&self, who: u64, n: u64) -> u64 {
        let z = self
            .numbers
            .seed
            .wrapping_add(who.wrapping_mul(0xd1b5_4a32_d192_ed03));
        let z = z.wrapping_add(n.wrapping_mul(0x9e37_79b9_7f4a_7c15));
        let z = (z ^ (z >> 30)).wrapping_mul(0xbf58_476d_1ce4_e5b9);
        let z = (z ^ (z >> 27)).wrapping_mul(0x94d0_49bb_1331_11eb);
        (z ^ (z >> 31)) % 1_024
    }
}

/// Which messages are lost, doubled and late. After the trouble all pass.
impl Fate for Trouble {
    fn of(&self, worker: usize, n: u64) -> DeliveryMode {
        if self.is_over() {
            return DeliveryMode::Pass;
        }
        let numbers = &self.numbers;
        let chance = self.chance(worker as u64, n);
        let doubled = numbers.lost.saturating_add(numbers.doubled);
        if chance < numbers.lost {
            self.lost.fetch_add(1, Ordering::SeqCst);
            DeliveryMode::Drop
        } else if chance < doubled {
            self.doubled.fetch_add(1, Ordering::SeqCst);
            DeliveryMode::Twice
        } else if chance < doubled.saturating_add(numbers.late) {
            self.late.fetch_add(1, Ordering::SeqCst);
            DeliveryMode::Late
        } else {
            DeliveryMode::Pass
        }
    }
}

/// Keeps some requests for a while.
impl Gate for Trouble {
    fn before(&self, number: u64) {
        if number == 0 || self.chance(number, read(&self.ticks)) >= self.numbers.kept {
            return;
        }
        for _ in 0..TURNS {
            yield_now();
        }
    }
}
