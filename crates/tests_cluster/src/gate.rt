//! A gate that counts what workers take, and can hold them.

use crate::hold::{Hold, pause, reaches};
use osd::Gate;
use std::sync::atomic::{AtomicBool, AtomicU64, Ordering};

/// The gate of a test's workers. Client 1 is the fence: of its requests it keeps the newest number
/// alone.
#[derive(Drop)]
pub struct TestGate {
    /// The number of client 1's newest request.
    fence: AtomicU64,
    /// The operations that came.
    came: AtomicU64,
    /// The operations taken that aren't clients' requests.
    others: AtomicU64,
    /// The clients' requests taken.
    requests: AtomicU64,
    /// The requests that came, by their own numbers: the digits of a number to base 16.
    digits: AtomicU64,
    /// The number of the last request that came, with its client's.
    last: AtomicU64,
    /// The number of operations that the worker may take before it is held.
    limit: AtomicU64,
    /// The number, from 1 on, of the operation with which it is held, or was last.
    held_with: AtomicU64,
    /// Holds the next operation that isn't a client's request.
    pub other: Hold,
    /// Holds the next request number 1.
    pub first: Hold,
    /// Each operation that isn't a client's request stays for a pause.
    lingers: AtomicBool,
    /// The number of those that stay, and the fact that there were two.
    inside: AtomicU64,
    are_two: AtomicBool,
}

impl TestGate {
    /// A gate that holds nobody.
    pub fn new() -> TestGate {
        TestGate {
            fence: AtomicU64::new(0),
            came: AtomicU64::new(0),
            others: AtomicU64::new(0),
            requests: AtomicU64::new(0),
            digits: AtomicU64::new(0),
            last: AtomicU64::new(0),
            limit: AtomicU64::new(u64::MAX),
            held_with: AtomicU64::new(0),
            other: Hold::new(),
            first: Hold::new(),
            lingers: AtomicBool::new(false),
            inside: AtomicU64::new(0),
            are_two: AtomicBool::new(false),
        }
    }

    /// The number of operations that came.
    pub fn came(&self) -> u64 {
        self.came.load(Ordering::SeqCst)
    }

    /// The number of operations taken that aren't clients' requests.
    pub fn others(&self) -> u64 {
        self.others.load(Ordering::SeqCst)
    }

    /// Waits until there are at least that many. False if that takes too long.
    pub fn takes_others(&self, count: u64) -> bool {
        reaches(&self.others, count)
    }

    /// The number of clients' requests taken.
    pub fn requests(&self) -> u64 {
        self.requests.load(Ordering::SeqCst)
    }

    /// Waits until there are at least that many. False if that takes too long.
    pub fn takes_requests(&self, count: u64) -> bool {
        reaches(&self.requests, count)
    }

    /// The number of operations taken.
    pub fn all(&self) -> u64 {
        self.others().wrapping_add(self.requests())
    }

    /// Waits until a worker has taken client 1's request of that number. False if another one was
    /// its newest, or if that takes too long.
    pub fn passes(&self, number: u32) -> bool {
        let number = u64::from(number);
        reaches(&self.fence, number) && self.fence.load(Ordering::SeqCst) == number
    }

    /// Waits until that many requests came, by their digits, and compares these. The last one's
    /// client has to be that one.
    pub fn has_order(&self, digits: u64, client: u64) -> bool {
        reaches(&self.digits, digits)
            && self.digits.load(Ordering::SeqCst) == digits
            && self.last.load(Ordering::SeqCst) % (1 << 32) == digits % 16
            && self.last.load(Ordering::SeqCst) >> 32 == client
    }

    /// Lets the worker take that many more operations, and holds it with the next one. The
    /// operation that it is held with already, if any, counts among them.
    pub fn hold_after(&self, operations: u64) -> bool {
        let limit = self.all().wrapping_add(operations);
        self.limit.store(limit, Ordering::SeqCst);
        true
    }

    /// Waits until it is held so. False if that takes too long.
    pub fn holds(&self) -> bool {
        let limit = self.limit.load(Ordering::SeqCst);
        reaches(&self.held_with, limit.saturating_add(1))
    }

    /// Lets all go.
    pub fn free(&self) -> bool {
        self.limit.store(u64::MAX, Ordering::SeqCst);
        true
    }

    /// Operations stay for a pause from now on.
    pub fn linger(&self) -> bool {
        self.lingers.store(true, Ordering::SeqCst);
        true
    }

    /// True if no two stayed at one time.
    pub fn is_one_at_a_time(&self) -> bool {
        !self.are_two.load(Ordering::SeqCst)
    }

    fn hold_at_limit(&self) {
        let taken = self.all();
        if taken >= self.limit.load(Ordering::SeqCst) {
            let next = taken.saturating_add(1);
            self.held_with.store(next, Ordering::SeqCst);
            let _ = reaches(&self.limit, next);
        }
    }

    fn pass_other(&self) {
        self.other.pass();
        if self.lingers.load(Ordering::SeqCst) {
            if self.inside.fetch_add(1, Ordering::SeqCst) != 0 {
                self.are_two.store(true, Ordering::SeqCst);
            }
            pause();
            self.inside.fetch_sub(1, Ordering::SeqCst);
        }
        self.others.fetch_add(1, Ordering::SeqCst);
    }

    fn pass_request(&self, number: u64) {
        let own = number % (1 << 32);
        let digits = self.digits.load(Ordering::SeqCst);
        let digits = digits.wrapping_mul(16).wrapping_add(own);
        // Before the digits, which are what a step waits for.
        self.last.store(number, Ordering::SeqCst);
        self.digits.store(digits, Ordering::SeqCst);
        if own == 1 {
            self.first.pass();
        }
        self.requests.fetch_add(1, Ordering::SeqCst);
    }
}

impl Gate for TestGate {
    fn before(&self, number: u64) {
        if number >> 32 == 1 {
            self.fence.store(number % (1 << 32), Ordering::SeqCst);
            return;
        }
        self.came.fetch_add(1, Ordering::SeqCst);
        self.hold_at_limit();
        if number == 0 {
            self.pass_other();
        } else {
            self.pass_request(number);
        }
    }
}
