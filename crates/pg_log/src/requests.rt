ghost use Rattle.std.specs.Prelude.{◌≡◌, ◌==◌, ◌≤◌, [], drop, length, IfOk};

use crate::request::Request;
use std::alloc::{AllocError, Global};
use std::marker::Model;
use std::sync::Arc;

/// A list of requests that never changes once it is made, as a message carries it. Its copies, and
/// its rests from a place on, share it by reference count. Contracts see the list.
pub struct Requests {
    all: Option<Arc<Vec<Request>>>,
    from: usize,
}

// Written out, so that a crate that drops a list calls this, and proves nothing of its parts once
// more.
impl Drop for Requests {
    fn drop(self) {
        let Requests { all, from: _ } = self;
        drop(all);
    }
}

impl Model for Requests {
    ghost use Rattle.std.specs.Prelude.{◌≤◌, List, drop, length};
    ghost use Rattle.pg_log.specs.Requests.{ClientRequest, listed};

    ghost Value = { List ClientRequest };

    ghost view = { λ r. drop r.from (listed r.all) };

    ghost invariant = { λ r. r.from ≤ length (listed r.all) };
}

impl Requests {
    /// The empty list. It takes no memory.
    pub fn none() -> Requests
        ensures { result ≡ [] }
    {
        Requests { all: None, from: 0 }
    }

    /// The list of those.
    pub fn new(alloc: Global, items: Vec<Request>) -> Result<Requests, AllocError>
        ensures { IfOk result (λ r. r ≡ items.items) }
    {
        Ok(Requests {
            all: Some(Arc::new(alloc, items)?),
            from: 0,
        })
    }

    /// The requests, the first one first.
    pub fn items(&self) -> &[Request]
        ensures { result.now ≡ self.now }
    {
        match &self.all {
            Some(all) => &all[self.from..],
            None => &[],
        }
    }

    /// True if there is no request.
    pub fn is_empty(&self) -> bool
        ensures { result ≡ (length self.now == 0) }
    {
        self.items().is_empty()
    }

    /// The number of requests.
    pub fn len(&self) -> usize
        ensures { result ≡ length self.now }
    {
        self.items().len()
    }

    /// The same list, by one reference more. It fails only if the reference count is full.
    pub fn copy(&self) -> Result<Requests, AllocError>
        ensures { IfOk result (λ r. r ≡ self.now) }
    {
        let all = match &self.all {
            Some(all) => Some(Arc::try_clone(all)?),
            None => None,
        };
        Ok(Requests {
            all,
            from: self.from,
        })
    }

    /// The requests from a place on. It takes no memory.
    pub fn rest(self, from: usize) -> Requests
        requires { from ≤ length self }
        ensures { result ≡ drop from self }
    {
        let mut rest = self;
        rest.from += from;
        rest
    }
}
