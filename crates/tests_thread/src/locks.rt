//! Eight threads that append to one group under one lock.

ghost use mathlib.Core.List.{IsPrefix};

use builtin_classes::load_lock;
use object_store::ObjectName;
use pg_log::{
    ClassTable, Classes, ClientId, Entry, Group, Request, RequestNumber, RequestParts,
    group_crosses, table_crosses,
};
use std::alloc::Global;
use std::marker::Brand;
use std::process::Abort;
use std::sync::{Barrier, Mutex, Wait};
use std::thread::{Threads, map_indices};

/// The number of threads that append. Each is a client: 1, 2 and so on.
const THREADS: u32 = 8;

/// The number of requests that each appends, numbered from 1 on.
const EACH: u32 = 100;

/// The code of `lock` for a client while another has the lock.
const EBUSY: i64 = -16;

/// A client's request for the lock of the one object.
pub fn request<R: Abort>(rt: &R, alloc: Global, client: u32, number: u32) -> Request {
    let parts = RequestParts {
        client: ClientId::new(client).expect(rt, "a client"),
        number: RequestNumber::new(number).expect(rt, "a number"),
        object: ObjectName::new(alloc, "object").expect(rt, "memory"),
        class: 0,
        method: String::from_str(alloc, "lock").expect(rt, "memory"),
        input: Vec::new(alloc),
    };
    Request::new(alloc, parts).expect(rt, "memory")
}

/// A thread, of client 1, 2 and so on, appends its requests, each under the lock.
fn append_each<C: Classes, R: Wait + Abort>(
    rt: &R,
    alloc: Global,
    table: &ClassTable,
    group: &Mutex<Group<C>>,
    index: usize,
)
    requires { IsPrefix table.now C.classes }
{
    let client = u32::try_from(index).unwrap_or(0).wrapping_add(1);
    for number in 1..=EACH {
        let request = request(rt, alloc, client, number);
        let place = group.lock(rt).append(table, request);
        place.expect(rt, "a place");
    }
}

/// True if the group is right that all threads make together, after a barrier that starts them at
/// once.
fn appended<C: Classes + Send + Sync, R: Threads + Wait + Abort + Sync>(
    rt: &R,
    alloc: Global,
    table: &ClassTable,
) -> bool
    requires { IsPrefix table.now C.classes }
{
    // For the proof: threads may share a lock on a group, and may share a table.
    group_crosses::<C>();
    table_crosses();
    let group = Mutex::new(Group::<C>::new(alloc));
    let start = Barrier::new(THREADS as usize);
    let thread = |index: usize|
        requires { IsPrefix table.now C.classes }
    {
        start.wait(rt);
        append_each(rt, alloc, table, &group, index)
    };
    map_indices(rt, alloc, THREADS as usize, &thread).expect(rt, "memory");
    are_right(group.into_inner().entries())
}

/// The number of entries of a client, if they are numbered 1, 2 and so on in their order.
fn rising(entries: &[Entry], client: u32) -> Option<u32> {
    let mut last = 0u32;
    for entry in entries {
        if entry.request.client().get() == client {
            last = last.wrapping_add(1);
            if entry.request.number().get() != last {
                return None;
            }
        }
    }
    Some(last)
}

/// True if the client of the first entry got the lock each time, and every other client never.
fn is_held_by_first(entries: &[Entry]) -> bool {
    let mut owner = None;
    for entry in entries {
        let client = entry.request.client().get();
        let owner = *owner.get_or_insert(client);
        if entry.code != if client == owner { 0 } else { EBUSY } {
            return false;
        }
    }
    true
}

/// True if all entries are there, each client's in order, and only the first one's client got the
/// lock.
fn are_right(entries: &[Entry]) -> bool {
    // Eight threads append 100 requests each.
    let mut all = entries.len() == 800;
    for client in 1..=THREADS {
        all = all && rising(entries, client) == Some(EACH);
    }
    all && is_held_by_first(entries)
}

#[test]
fn eight_threads_append_under_a_lock(rt: HostRuntime) {
    let alloc = rt.alloc();
    let mut table = ClassTable::new(alloc);
    let lock = load_lock(alloc).expect(&rt, "a class");
    table.add(lock).expect(&rt, "memory");
    assert!(rt; appended::<Brand, HostRuntime>(&rt, alloc, &table));
}
