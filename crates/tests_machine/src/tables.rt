//! The table of classes, and the refusals of calls.

use crate::methods;
use interp::{CallError, ClassTable, TableError, call};
use std::alloc::Global;
use std::fmt;
use std::process::Abort;
use verifier::VerifiedClass;

/// A class of one method, of that in_cap.
fn class(rt: &impl Abort, alloc: Global, in_cap: u16) -> VerifiedClass {
    let in_cap = in_cap.to_string(alloc).expect(rt, "memory");
    let pieces = [".method f r ", &in_cap, " 0; mov r0, 0; exit"];
    methods::class(rt, alloc, &pieces)
}

/// Adds a class to a table. Returns true if it got this id.
fn is_added(table: &mut ClassTable, class: VerifiedClass, id: u16) -> bool {
    table.add(class) == Ok(usize::from(id))
}

/// Fills a table with 64 classes. Returns true if they got the ids from 0 on.
fn are_added(rt: &impl Abort, alloc: Global, table: &mut ClassTable) -> bool {
    let mut all = true;
    for id in 0..64u16 {
        all = all && is_added(table, class(rt, alloc, id), id);
    }
    all && table.len() == 64 && !table.is_empty()
}

/// True if a table refuses to take one more class.
fn is_full(table: &mut ClassTable, class: VerifiedClass) -> bool {
    table.add(class) == Err(TableError::TooMany)
}

#[test]
fn classes(rt: HostRuntime) {
    let mut table = ClassTable::new(rt.alloc());
    assert!(rt;
        are_added(&rt, rt.alloc(), &mut table) && is_full(&mut table, class(&rt, rt.alloc(), 64))
    );
}

/// The in_cap of the method `f` of a class.
fn in_cap(table: &ClassTable, id: usize) -> Option<u16> {
    Some(table.get(id)?.method("f")?.caps().in_cap)
}

/// Adds classes with these in_caps.
fn add_all(rt: &impl Abort, alloc: Global, table: &mut ClassTable, in_caps: &[u16]) {
    for in_cap in in_caps {
        // The test reads the classes by their ids instead.
        let _ = table.add(class(rt, alloc, *in_cap));
    }
}

/// True if the table holds exactly two classes, with the in_caps 5 and 6.
fn has_two(table: &ClassTable) -> bool {
    in_cap(table, 0) == Some(5) && in_cap(table, 1) == Some(6) && in_cap(table, 2).is_none()
}

#[test]
fn ids(rt: HostRuntime) {
    let mut table = ClassTable::new(rt.alloc());
    add_all(&rt, rt.alloc(), &mut table, &[5, 6]);
    assert!(rt; has_two(&table));
}

static CALL_ERRORS: [(CallError, u8, &str); 3] = [
    (CallError::NoMethod, 1, "1 NoMethod"),
    (CallError::InputTooLong, 2, "2 InputTooLong"),
    (CallError::NoMemory, 3, "3 NoMemory"),
];

static TABLE_ERRORS: [(TableError, u8, &str); 2] = [
    (TableError::TooMany, 1, "1 TooMany"),
    (TableError::NoMemory, 2, "2 NoMemory"),
];

/// True if an error prints as this text.
fn prints<E: fmt::Display>(rt: &impl Abort, alloc: Global, error: &E, text: &str) -> bool {
    let printed = error.to_string(alloc).expect(rt, "memory");
    printed.as_str() == text
}

#[test]
fn call_errors(rt: HostRuntime) {
    for (error, number, text) in &CALL_ERRORS {
        assert!(rt; error.number() == *number && prints(&rt, rt.alloc(), error, text));
    }
}

#[test]
fn table_errors(rt: HostRuntime) {
    for (error, number, text) in &TABLE_ERRORS {
        assert!(rt; error.number() == *number && prints(&rt, rt.alloc(), error, text));
    }
}

/// A method's name, an input, and the refusal.
const REFUSED: [(&str, &[u8], Option<CallError>); 3] = [
    ("g", b"abcd", Some(CallError::NoMethod)),
    ("f", b"abcd", Some(CallError::InputTooLong)),
    ("f", b"abc", None),
];

#[test]
fn refuses(rt: HostRuntime) {
    let class = class(&rt, rt.alloc(), 3);
    for (method, input, refused) in &REFUSED {
        let answer = call(rt.alloc(), &class, method, None, 7, input);
        assert!(rt; answer.err() == *refused, "{method}");
    }
}
