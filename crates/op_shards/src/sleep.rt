use crate::word::Word;
use std::sync::{Condvar, Mutex, Wait};

/// Where threads sleep until they are woken. A test has one of its own.
pub trait Sleep<W>: Drop {
    /// Sleeps while the word is this value. To look at the word and to fall asleep is one step
    /// with regard to `wake_all`.
    fn sleep_while<R: Wait>(&self, rt: &R, word: &W, value: u64);

    /// Has all who sleep look at their word again.
    fn wake_all<R: Wait>(&self, rt: &R);
}

/// Threads that sleep on a condition variable.
#[derive(Drop)]
pub struct Sleepers {
    lock: Mutex<()>,
    woken: Condvar,
}

impl Sleepers {
    /// Nobody sleeps.
    pub fn new() -> Sleepers {
        Sleepers {
            lock: Mutex::new(()),
            woken: Condvar::new(),
        }
    }
}

impl<W: Word> Sleep<W> for Sleepers {
    fn sleep_while<R: Wait>(&self, rt: &R, word: &W, value: u64) {
        let lock = self.lock.lock(rt);
        drop(self.woken.wait_while(rt, lock, |_| word.value() == value));
    }

    fn wake_all<R: Wait>(&self, rt: &R) {
        // Who has looked and isn't asleep yet has the lock.
        drop(self.lock.lock(rt));
        self.woken.notify_all();
    }
}
