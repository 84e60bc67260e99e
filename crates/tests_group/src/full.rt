//! A full log, in which each request makes an object of its own.
ghost use mathlib.Core.List.{IsPrefix};

use super::requests::call_of;
use super::script::table;
use super::words::see;
use interp::ClassTable;
use object_store::ObjectName;
use pg_log::{Classes, Group, GroupWork, LogError, Request, copy_requests, with_group};
use std::alloc::Global;
use std::process::Abort;

/// The limit on a log's entries, and so on a group's objects.
const MOST: u32 = 65_536;

/// A request in the middle, past 32,768.
const SOME: u32 = 40_000;

/// A client's request of that number: it makes an object. Each 1,024th has the longest input.
fn creates<R: Abort>(rt: &R, alloc: Global, who: u32, value: u32) -> Request {
    let zeros = if value % 1_024 == 0 { 4_096 } else { 8 };
    let text = format!(in alloc; "o{value} obj write *{zeros}").expect(rt, "memory");
    call_of(rt, alloc, who, value, &mut text.split_whitespace())
}

/// As many requests as a log holds, of client 1 but the last, from number 1 on.
fn full_list<R: Abort>(rt: &R, alloc: Global, last: u32) -> Vec<Request> {
    let mut list = Vec::new(alloc);
    for value in 1..MOST {
        list.push(creates(rt, alloc, 1, value)).expect(rt, "memory");
    }
    list.push(creates(rt, alloc, last, MOST))
        .expect(rt, "memory");
    list
}

/// True if a group has the object of the request of a number.
fn has_object<C: Classes, R: Abort>(rt: &R, alloc: Global, group: &Group<C>, value: u32) -> bool {
    let name = format!(in alloc; "o{value}").expect(rt, "memory");
    let name = ObjectName::new(alloc, &name).expect(rt, "memory");
    group.object(&name).is_some()
}

/// True if a log is full and has its objects: it takes no request, and still gives the place of a
/// logged pair.
fn is_full<C: Classes, R: Abort>(
    rt: &R,
    alloc: Global,
    table: &ClassTable,
    group: &mut Group<C>,
) -> bool
    requires { IsPrefix table.now C.classes }
{
    let more = group.append(table, creates(rt, alloc, 1, MOST + 1));
    let again = group.append(table, creates(rt, alloc, 1, SOME));
    more.err() == Some(LogError::LogFull)
        && again.ok() == Some(SOME as usize - 1)
        && group.len() == MOST as usize
        && has_object(rt, alloc, group, 1)
        && has_object(rt, alloc, group, MOST)
        && !has_object(rt, alloc, group, MOST + 1)
}

#[derive(Drop)]
struct Filled<'a, R> {
    rt: &'a R,
    alloc: Global,
}

impl<R: Abort> GroupWork for Filled<'_, R> {
    type Output = ();

    ghost gives = { λ _ _ _ _. Unit {0} };

    /// Fills a group by `append`, by `copy`, by `replay`, and by `adopt` of a list that differs in
    /// its last request.
    fn work<C: Classes>(self, table: &ClassTable, mut group: Group<C>) {
        let (rt, alloc) = (self.rt, self.alloc);
        let list = full_list(rt, alloc, 1);
        for request in copy_requests(alloc, &list).expect(rt, "memory") {
            // The length at the end tells that all were appended.
            let _ = group.append(table, request).expect(rt, "room");
        }
        see(rt, is_full(rt, alloc, table, &mut group), "appended");
        let mut copy = group.copy(alloc).expect(rt, "memory");
        see(rt, is_full(rt, alloc, table, &mut copy), "copied");
        let mut again = Group::<C>::replay(alloc, table, &list).expect(rt, "memory");
        see(rt, is_full(rt, alloc, table, &mut again), "replayed");
        let other = full_list(rt, alloc, 2);
        let common = again.adopt(table, &other).ok();
        see(
            rt,
            common == Some(MOST as usize - 1),
            "all but one in common",
        );
        see(rt, is_full(rt, alloc, table, &mut again), "adopted");
    }
}

#[test]
fn full_log(rt: HostRuntime) {
    let alloc = rt.alloc();
    let table = table(&rt, alloc);
    with_group(alloc, &table, Filled { rt: &rt, alloc });
}
