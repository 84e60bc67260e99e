use crate::cause::Cause;
use std::alloc::{AllocError, Global};
use std::sync::atomic::{AtomicU64, Ordering};

/// Of each group, how much of its last nudge is under way: the nudge itself, and the operations
/// that go back to it and aren't served yet. A nudge that comes meanwhile adds nothing, since it
/// would send the same again.
#[derive(Drop)]
pub(crate) struct Nudges {
    under_way: Vec<AtomicU64>,
}

impl Nudges {
    /// Nothing is under way in that many groups.
    pub fn new(alloc: Global, groups: usize) -> Result<Nudges, AllocError> {
        let mut under_way = Vec::new(alloc);
        for _ in 0..groups {
            under_way.push(AtomicU64::new(0))?;
        }
        Ok(Nudges { under_way })
    }

    /// Begins a nudge of the group. None if one is under way, and if there is no such group.
    pub fn begin(&self, group: usize) -> Option<Nudge<'_>> {
        let under_way = self.under_way.get(group)?;
        let began = under_way.compare_exchange(0, 1, Ordering::SeqCst, Ordering::SeqCst);
        if began.is_err() {
            return None;
        }
        Some(Nudge { under_way })
    }

    /// An operation is about to go into a queue: before that, since a worker may be done with it at
    /// once.
    pub fn add(&self, group: usize, cause: Cause) {
        if cause == Cause::Nudge
            && let Some(count) = self.under_way.get(group)
        {
            count.fetch_add(1, Ordering::SeqCst);
        }
    }

    /// An operation was served or lost, or no queue took it.
    pub fn remove(&self, group: usize, cause: Cause) {
        if cause == Cause::Nudge
            && let Some(count) = self.under_way.get(group)
        {
            count.fetch_sub(1, Ordering::SeqCst);
        }
    }
}

/// A nudge that is under way. Who sends by it has it, and it has to be ended.
// It isn't `Drop`, so one that isn't ended doesn't compile, nor one that sends after its end.
pub(crate) struct Nudge<'a> {
    under_way: &'a AtomicU64,
}

impl Nudge<'_> {
    /// Ends it. Its operations may still be under way.
    pub fn end(self) {
        let Nudge { under_way } = self;
        under_way.fetch_sub(1, Ordering::SeqCst);
    }
}
