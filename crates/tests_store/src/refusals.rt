//! The numbers of refusals, how they print, and the lengths of names.

use object_store::{DataError, ObjectName, StoreError};
use std::alloc::Global;
use std::fmt::Display;
use std::process::Abort;
use txn::NoMemory;

static OF_OBJECTS: [(StoreError, u8, &str); 7] = [
    (StoreError::Absent, 1, "1 Absent"),
    (StoreError::Exists, 2, "2 Exists"),
    (StoreError::NoAttr, 3, "3 NoAttr"),
    (StoreError::TooBig, 4, "4 TooBig"),
    (StoreError::TooMany, 5, "5 TooMany"),
    (StoreError::Range, 6, "6 Range"),
    (StoreError::NoMemory, 7, "7 NoMemory"),
];

static OF_DATA: [(DataError, u8, &str); 2] = [
    (DataError::TooBig, 4, "4 TooBig"),
    (DataError::NoMemory, 7, "7 NoMemory"),
];

/// True if a refusal prints as that text.
fn prints<R: Abort, T: Display>(rt: &R, alloc: Global, error: &T, text: &str) -> bool {
    error.to_string(alloc).expect(rt, "memory").as_str() == text
}

#[test]
fn refusals(rt: HostRuntime) {
    for (error, number, text) in &OF_OBJECTS {
        assert!(rt; error.number() == *number && prints(&rt, rt.alloc(), error, *text));
    }
    for (error, number, text) in &OF_DATA {
        assert!(rt; error.number() == *number && prints(&rt, rt.alloc(), error, *text));
    }
    assert!(rt; prints(&rt, rt.alloc(), &NoMemory, "NoMemory"));
}

/// True if a copy of a name of that many letters is as long. A refusal by its length is `Range`.
fn is_named<R: Abort>(rt: &R, alloc: Global, len: usize, named: bool) -> bool {
    let text = "x".repeat(alloc, len).expect(rt, "memory");
    match ObjectName::new(alloc, &text) {
        Err(error) => !named && error == StoreError::Range,
        Ok(name) => named && name.copy(alloc).expect(rt, "memory").text().len() == len,
    }
}

#[test]
fn lengths(rt: HostRuntime) {
    for (len, named) in [(0, false), (1, true), (255, true), (256, false)] {
        assert!(rt; is_named(&rt, rt.alloc(), len, named));
    }
}
