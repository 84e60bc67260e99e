use std::sync::atomic::{AtomicU64, Ordering};

/// A word that threads share. Each call is one step: no step of another thread comes within it. The
/// steps of all threads have one order. A test has words of its own, and decides by them which
/// thread makes the next step.
pub trait Word: Drop {
    /// The word.
    fn value(&self) -> u64;

    /// True if one of these bits is set.
    fn has(&self, bits: u64) -> bool;

    /// Sets these bits. Answers whether one of them was set.
    fn set(&self, bits: u64) -> bool;

    /// Clears these bits. Answers whether one of them was set.
    fn clear(&self, bits: u64) -> bool;

    /// Adds 2 modulo 2^64, so that bit 0 stays. Answers whether it is set.
    fn add_two(&self) -> bool;
}

impl Word for AtomicU64 {
    fn value(&self) -> u64 {
        self.load(Ordering::SeqCst)
    }

    fn has(&self, bits: u64) -> bool {
        self.load(Ordering::SeqCst) & bits != 0
    }

    fn set(&self, bits: u64) -> bool {
        self.fetch_or(bits, Ordering::SeqCst) & bits != 0
    }

    fn clear(&self, bits: u64) -> bool {
        self.fetch_and(!bits, Ordering::SeqCst) & bits != 0
    }

    fn add_two(&self) -> bool {
        self.fetch_add(2, Ordering::SeqCst) & 1 != 0
    }
}
