use crate::name::ClusterName;
use group_cell::Post;
use std::sync::atomic::{AtomicBool, Ordering};
use std::sync::{Mutex, Wait};

/// A client's mailbox: the answer that came last, if it wasn't taken. It may be one to an earlier
/// request than the answer that it replaced.
pub(crate) struct Mailbox<N: ClusterName> {
    /// True while an answer is in it: who looks into an empty mailbox takes no lock.
    is_full: AtomicBool,
    newest: Mutex<Option<Post<N>>>,
}

impl<N: ClusterName> Drop for Mailbox<N> {
    fn drop(self) {
        let Mailbox { is_full, newest } = self;
        drop(is_full);
        drop(newest);
    }
}

impl<N: ClusterName> Mailbox<N> {
    /// An empty mailbox.
    pub fn new() -> Mailbox<N> {
        Mailbox {
            is_full: AtomicBool::new(false),
            newest: Mutex::new(None),
        }
    }

    /// Puts an answer in, over the one that is there.
    pub fn put<R: Wait>(&self, rt: &R, post: Post<N>) {
        // A client asks one thing at a time, and asks again for what it missed: one answer is
        // enough.
        let mut newest = self.newest.lock(rt);
        *newest = Some(post);
        self.is_full.store(true, Ordering::SeqCst);
    }

    /// Takes the answer out.
    pub fn take<R: Wait>(&self, rt: &R) -> Option<Post<N>> {
        if !self.is_full.load(Ordering::SeqCst) {
            return None;
        }
        let mut newest = self.newest.lock(rt);
        self.is_full.store(false, Ordering::SeqCst);
        newest.take()
    }
}
