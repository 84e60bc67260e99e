use anyhow::{Context, Result};
use object_store::ObjectName;
use pg_log::{ClientId, Request, RequestNumber, RequestParts};
use std::alloc::Global;

/// A client's request of one object, made again and again.
#[derive(Clone, Copy)]
pub enum Asked {
    /// `lock` and `unlock`, by turns.
    Lock,
    /// `read` of eight bytes of class `obj`.
    Read,
    /// `write` of eight bytes of class `obj`.
    Write,
}

/// The classes by their ids, in the order of the table.
const LOCK: usize = 0;

const OBJ: usize = 1;

/// The number of the request that writes the object before the others.
pub const FIRST: u32 = 1;

/// The place 0 and the number 8, and the place 0 and eight bytes.
const READ: [u8; 16] = *b"\0\0\0\0\0\0\0\0\x08\0\0\0\0\0\0\0";

const WRITE: [u8; 16] = *b"\0\0\0\0\0\0\0\0contents";

impl Asked {
    pub fn name(self) -> &'static str {
        match self {
            Asked::Lock => "lock",
            Asked::Read => "obj read",
            Asked::Write => "obj write",
        }
    }

    /// That many requests, whose numbers come after the first one's.
    pub fn requests(self, alloc: Global, count: u32) -> Result<Vec<Request>> {
        let mut requests = Vec::new(alloc);
        for before in 0..count {
            requests.push(self.request(alloc, FIRST.saturating_add(1).saturating_add(before))?)?;
        }
        Ok(requests)
    }

    /// Client 1's request of that number.
    pub fn request(self, alloc: Global, number: u32) -> Result<Request> {
        let (class, method, input): (usize, &str, &[u8]) = match self {
            Asked::Lock if number % 2 == 0 => (LOCK, "lock", &[]),
            Asked::Lock => (LOCK, "unlock", &[]),
            Asked::Read => (OBJ, "read", &READ),
            Asked::Write => (OBJ, "write", &WRITE),
        };
        let client = ClientId::new(1).context("a client")?;
        let number = RequestNumber::new(number).context("a number")?;
        let object = ObjectName::new(alloc, "object")?;
        let method = String::from_str(alloc, method)?;
        let input = Vec::from_slice(alloc, input)?;
        let parts = RequestParts {
            client,
            number,
            object,
            class,
            method,
            input,
        };
        Ok(Request::new(alloc, parts)?)
    }
}
