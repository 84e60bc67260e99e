ghost use Rattle.std.specs.Prelude.{◌≡◌, ◌↔◌, IfOk, IfErr, IsTrue, string_bytes};
ghost use Rattle.pg_log.specs.Requests.{said_by};

use crate::client_id::ClientId;
use crate::log_error::LogError;
use crate::request_number::RequestNumber;
use crate::request_parts::RequestParts;
use object_store::ObjectName;
use std::alloc::Global;
use std::marker::Model;
use std::sync::Arc;

/// A client's request: a method of a class, to be run on an object. It never changes once it is
/// made, so all copies of it, in logs and in messages, share one value by reference count.
/// Contracts see its parts.
pub struct Request {
    parts: Arc<RequestParts>,
}

// Written out, so that a crate that drops a request calls this, and proves nothing of its parts
// once more.
impl Drop for Request {
    fn drop(self) {
        let Request { parts } = self;
        drop(parts);
    }
}

impl Model for Request {
    ghost use Rattle.std.specs.Arc.{arc_value};
    ghost use Rattle.pg_log.specs.Requests.{ClientRequest, said_by};

    ghost Value = { ClientRequest };

    ghost view = { λ r. said_by (arc_value r.parts) };
}

impl Request {
    /// The request of those parts, which it takes. It refuses by `NoMemory` alone.
    pub fn new(alloc: Global, parts: RequestParts) -> Result<Request, LogError>
        ensures ok { IfOk result (λ r. r ≡ said_by parts) }
        ensures err { IfErr result (λ e. e ≡ LogError.NoMemory) }
    {
        Ok(Request {
            parts: Arc::new(alloc, parts)?,
        })
    }

    /// The client that sent it.
    pub fn client(&self) -> ClientId
        ensures { result ≡ self.now.client }
    {
        self.parts.client
    }

    /// The number that the client gave it.
    pub fn number(&self) -> RequestNumber
        ensures { result ≡ self.now.number }
    {
        self.parts.number
    }

    /// The name of the object.
    pub fn object(&self) -> &ObjectName
        ensures { result.now ≡ self.now.object }
    {
        &self.parts.object
    }

    /// The class, by its id.
    pub fn class(&self) -> usize
        ensures { result ≡ self.now.class }
    {
        self.parts.class
    }

    /// The name of the method.
    pub fn method(&self) -> &str
        ensures { result.now ≡ self.now.method }
    {
        self.parts.method.as_str()
    }

    /// The input.
    pub fn input(&self) -> &[u8]
        ensures { result.now ≡ self.now.input }
    {
        &self.parts.input
    }

    /// The same request, by one reference more. It refuses by `NoMemory` alone, if the reference
    /// count is full.
    pub fn copy(&self) -> Result<Request, LogError>
        ensures ok { IfOk result (λ r. r ≡ self.now) }
        ensures err { IfErr result (λ e. e ≡ LogError.NoMemory) }
    {
        Ok(Request {
            parts: Arc::try_clone(&self.parts)?,
        })
    }

    /// True if the two are one request: equal in each part. Two copies of one are compared by their
    /// bytes, too: no contract of `Arc` says anything of equal pointers.
    pub fn is(&self, other: &Request) -> bool
        ensures { IsTrue result ↔ (self.now ≡ other.now) }
    {
        self.has_numbers_of(other) && self.has_texts_of(other)
    }

    /// True if client, number and class are equal.
    fn has_numbers_of(&self, other: &Request) -> bool
        ensures { IsTrue result ↔ ((self.now.client ≡ other.now.client) × (self.now.number ≡ other.now.number) ×
            (self.now.class ≡ other.now.class)) }
    {
        self.client() == other.client()
            && self.number() == other.number()
            && self.class() == other.class()
    }

    /// True if object, method and input are equal.
    fn has_texts_of(&self, other: &Request) -> bool
        ensures { IsTrue result ↔ ((self.now.object ≡ other.now.object) × (self.now.method ≡ other.now.method) ×
            (self.now.input ≡ other.now.input)) }
    {
        self.object().text() == other.object().text()
            && self.method() == other.method()
            && self.input() == other.input()
    }
}
