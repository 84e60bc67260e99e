ghost use Rattle.std.specs.Prelude.{◌≡◌, ◌≤◌, ◌==◌, [], length, MatchOption, Some, None};
ghost use Rattle.std.specs.Int.{w64, cast_unsigned};
ghost use Rattle.std.specs.FinMap as fin;
ghost use mathlib.Core.List.{IsPrefix};
ghost use Rattle.std.specs.Option.{option_copied};
ghost use Rattle.object_store.specs.Object.{IsObject};
ghost use Rattle.pg_log.specs.Log.{Legal, fold, reply_at};
ghost use Rattle.pg_log.specs.Refusals.{place_of};
ghost use Rattle.pg_log.specs.Entries.{AreEntries, AreSafe, requests_of, given_reply};

mod adopt;
mod append;
mod log;
mod replay;

use crate::classes::Classes;
use crate::client_id::ClientId;
use crate::entry::Entry;
use crate::group::log::Log;
use crate::places::Places;
use crate::request_number::RequestNumber;
use interp::Room;
use object_store::{Object, ObjectName, Objects};
use std::alloc::Global;
use std::marker::{Model, PhantomData};

/// The log of a group with the objects that it makes, for the classes that `C` names. Contracts see
/// the list of its requests, which is legal: objects, replies and the index by client are always
/// that list's.
pub struct Group<C: Classes> {
    of: PhantomData<C>,
    log: Log,
}

// Written out, so that a crate that drops a group calls this and needn't prove again how its parts
// are dropped.
impl<C: Classes> Drop for Group<C> {
    fn drop(self) {
        let Group { of: _, log } = self;
        drop(log);
    }
}

impl<C: Classes> Model for Group<C> {
    ghost use Rattle.std.specs.Prelude.{List};
    ghost use Rattle.pg_log.specs.Requests.{ClientRequest};
    ghost use Rattle.pg_log.specs.Entries.{KeepsLog, requests_of};

    ghost Value = { List ClientRequest };

    ghost view = { λ g. requests_of g.log.entries.items };

    ghost invariant = { λ g. KeepsLog C.classes g.log };
}

/// The most entries that a log has.
pub const LOG_LIMIT: usize = 65_536;

impl<C: Classes> Group<C> {
    /// A group with an empty log, and so without objects.
    pub fn new(alloc: Global) -> Group<C>
        ensures { result ≡ [] }
    {
        Group {
            of: PhantomData,
            log: Log {
                alloc,
                entries: Vec::new(alloc),
                objects: Objects::new(),
                places: Places::new(alloc),
                room: Room::new(alloc),
            },
        }
    }

    /// The same group, by a name with classes added.
    pub fn with_classes_added<D: Classes>(self) -> Group<D>
        requires { IsPrefix C.classes D.classes }
        ensures { result ≡ self }
    {
        let Group { of: _, log } = self;
        Group {
            of: PhantomData,
            log,
        }
    }

    /// The entries, by place. Each method that one ran is safe.
    pub fn entries(&self) -> &[Entry]
        ensures requests { requests_of result.now ≡ self.now }
        ensures kept { AreEntries C.classes fin.empty result.now }
        ensures legal { Legal C.classes self.now }
        ensures safe { AreSafe C.classes self.now }
    {
        &self.log.entries
    }

    /// The number of the log's entries, at most 65,536.
    pub fn len(&self) -> usize
        ensures value { result ≡ length self.now }
        ensures limit { length self.now ≤ LOG_LIMIT }
    {
        self.log.entries.len()
    }

    /// True if the log has no entry.
    pub fn is_empty(&self) -> bool
        ensures { result ≡ (length self.now == 0) }
    {
        self.log.entries.is_empty()
    }

    /// The code and output of the request at a place. It is kept, and costs the same at each place.
    pub fn reply_at(&self, place: usize) -> Option<(i64, &[u8])>
        ensures { given_reply result ≡ reply_at C.classes self.now place }
    {
        match self.log.entries.get(place) {
            Some(entry) => {
                let code = entry.code;
                Some((code, entry.output.as_slice()))
            }
            None => None,
        }
    }

    /// The place of the client's request of that number, with its code and output. It costs a
    /// logarithm of the number of clients and one of the client's requests.
    pub fn reply_of(&self, client: ClientId, number: RequestNumber) -> Option<(usize, i64, &[u8])>
        ensures { MatchOption result
            (place_of client number self.now ≡ None)
            (λ r. (place_of client number self.now ≡ Some r.0) ×
            (reply_at C.classes self.now r.0 ≡ Some (record { code = cast_unsigned w64 r.1; output = r.2.now }))) }
    {
        let place = self.log.places.place(client, number)?;
        let (code, output) = self.reply_at(place)?;
        Some((place, code, output))
    }

    /// The object of a name, if it exists. It costs a logarithm of the number of objects.
    pub fn object(&self, name: &ObjectName) -> Option<&Object>
        ensures value { option_copied result ≡ fin.get (fold C.classes self.now) name.now }
        ensures within { IsObject (option_copied result) }
    {
        let object = self.log.objects.get(name)?;
        // For the proof: a stored object's content is within the limits.
        object.within();
        Some(object)
    }
}
