use crate::sleep::Sleep;
use crate::word::Word;
use std::sync::Wait;

/// The bit of the count's word that says that a taker waits whom nobody wakes yet.
const WAITING: u64 = 1;

/// The bit that says that the takers are to end.
const FINISHED: u64 = 1;

/// The bell that wakes takers. It is rung after each operation that a queue took, when a shard is
/// released in which operations may be left, and at the end. Ringing it is one step if nobody
/// waits.
#[derive(Drop)]
pub struct Bell<W: Word, S: Sleep<W>> {
    /// Twice the number of times that it was rung, modulo 2^63, and the bit `WAITING`.
    rings: W,
    ends: W,
    sleepers: S,
}

impl<W: Word, S: Sleep<W>> Bell<W, S> {
    /// A bell by two words that are 0, and where takers sleep.
    pub fn of(rings: W, ends: W, sleepers: S) -> Bell<W, S> {
        Bell {
            rings,
            ends,
            sleepers,
        }
    }

    /// True if the takers are to end.
    pub fn is_finished(&self) -> bool {
        self.ends.has(FINISHED)
    }

    /// Has the takers end.
    pub fn finish<R: Wait>(&self, rt: &R) {
        self.ends.set(FINISHED);
        self.ring(rt);
    }

    /// Raises the count, and wakes all who wait.
    pub fn ring<R: Wait>(&self, rt: &R) {
        // Of those who ring at the same time one clears the bit, and wakes. Who sets it before that
        // and isn't asleep yet finds the word changed.
        if self.rings.add_two() && self.rings.clear(WAITING) {
            self.sleepers.wake_all(rt);
        }
    }

    /// The count of rings.
    pub fn count(&self) -> u64 {
        self.rings.value() >> 1
    }

    /// Waits while the count is still this one. It may return before, if somebody rings for others.
    pub fn wait<R: Wait>(&self, rt: &R, count: u64) {
        self.rings.set(WAITING);
        let value = (count << 1) | WAITING;
        self.sleepers.sleep_while(rt, &self.rings, value);
    }
}
