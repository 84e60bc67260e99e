//! The fate of the messages of a test's cluster.

use crate::hold::Hold;
use osd::{DeliveryMode, Fate};
use std::sync::atomic::{AtomicBool, AtomicU64, Ordering};

/// The rule that decides about messages.
#[derive(Clone, Copy)]
pub enum Rule {
    /// All pass.
    Pass,
    /// All pass at first. Between the steps `BeginMode` and `EndMode` that mode is each one's.
    Mode(DeliveryMode),
    /// All pass but the one of that number, which is late.
    LateOne(u64),
    /// Each third one is lost. Of the others each fifth is doubled.
    Lossy,
    /// The same, and of the rest each seventh is late.
    Mixed,
}

/// The fate of a test's messages. It counts them, and can hold a worker.
#[derive(Drop)]
pub struct TestFate {
    rule: Rule,
    worker: usize,
    is_mode_on: AtomicBool,
    is_loss_wanted: AtomicBool,
    messages: AtomicU64,
    /// A message was not of the worker, or its number was not the next one.
    is_wrong: AtomicBool,
    pub hold: Hold,
}

impl TestFate {
    /// The fate of that worker's messages.
    pub fn new(rule: Rule, worker: usize) -> TestFate {
        TestFate {
            rule,
            worker,
            is_mode_on: AtomicBool::new(false),
            is_loss_wanted: AtomicBool::new(false),
            messages: AtomicU64::new(0),
            is_wrong: AtomicBool::new(false),
            hold: Hold::new(),
        }
    }

    /// Begins or ends the time in which the rule's mode is each message's.
    pub fn set_mode(&self, is_on: bool) -> bool {
        self.is_mode_on.store(is_on, Ordering::SeqCst);
        true
    }

    /// The next message is to be lost.
    pub fn lose_next(&self) -> bool {
        self.is_loss_wanted.store(true, Ordering::SeqCst);
        true
    }

    /// The number of messages that it was asked about.
    pub fn messages(&self) -> u64 {
        self.messages.load(Ordering::SeqCst)
    }

    /// True if these were the worker's, numbered 0, 1, 2 and so on.
    pub fn is_in_order(&self) -> bool {
        !self.is_wrong.load(Ordering::SeqCst)
    }
}

impl Fate for TestFate {
    fn of(&self, worker: usize, n: u64) -> DeliveryMode {
        let messages = self.messages.fetch_add(1, Ordering::SeqCst);
        if worker != self.worker || messages != n {
            self.is_wrong.store(true, Ordering::SeqCst);
        }
        self.hold.pass();
        if self.is_loss_wanted.swap(false, Ordering::SeqCst) {
            return DeliveryMode::Drop;
        }
        match self.rule {
            Rule::Pass => DeliveryMode::Pass,
            Rule::Mode(mode) if self.is_mode_on.load(Ordering::SeqCst) => mode,
            Rule::Mode(_) => DeliveryMode::Pass,
            Rule::LateOne(late) if n == late => DeliveryMode::Late,
            Rule::LateOne(_) => DeliveryMode::Pass,
            Rule::Lossy | Rule::Mixed if n % 3 == 0 => DeliveryMode::Drop,
            Rule::Lossy | Rule::Mixed if n % 5 == 0 => DeliveryMode::Twice,
            Rule::Mixed if n % 7 == 0 => DeliveryMode::Late,
            Rule::Lossy | Rule::Mixed => DeliveryMode::Pass,
        }
    }
}
